// What is printed for a job stream and the file of a stored tree, as a function on lists: the tree that is loaded, as the tree of a build
// is printed, or a refusal.
#![tactic(auto)]

ghost use Rattle.std.specs.Prelude.{◌≡◌, ◌+◌, ◌≤◌, length};
ghost use Rattle.stored.specs.Programs.{reloaded_for, reloaded};
ghost use Rattle.stream_laws.specs.Sizes.{most_bytes};
ghost use Rattle.stream_reader.specs.Reading.{job_settings, job_is};
ghost use Rattle.bytes_out.specs.Writing.{Takes, Appends};
ghost use Rattle.job_room.specs.Printing.{print_answer_lem, print_output, printed_answer};
ghost use Rattle.reload.specs.Loading.{loaded_text};

use bytes_out::Writer;
use refusal::Refusal;
use stream_reader::Job;

// The longest file that is taken.
pub const MOST_FILE: usize = 1048576;

// The text of the tree that is loaded for a job, or of the loader's refusal. The lists suffice for the largest job.
fn write_loaded(job: Job<'_>, file: &[u8], out: &mut Writer<'_>)
    requires { Takes out.old (loaded_text (job_settings job) job.points.coordinates.now file.now) }
    ensures { Appends out.old out.new (loaded_text (job_settings job.entry) job.entry.points.coordinates.now file.now) }
{
    let mut lists = job_room::zero_lists();
    let mut lists = lists.lend();
    let answer = load::load_tree(job.points, job.params, file, &mut lists);
    print_tree::write_answer(answer, lists.read(), job.points.dimensions, out);
}

// The text for a job that was read: a large one's refusal where the file is too long.
fn write_job(job: Job<'_>, file: &[u8], out: &mut Writer<'_>)
    requires { out.old.at + most_bytes ≤ length out.old.bytes.now }
    ensures { Appends out.old out.new (reloaded_for (job_is job.entry) file.now) }
{
    if MOST_FILE < file.len() {
        print_texts::write_refusal(Refusal::LargeJob, out);
        return;
    }
    write_loaded(job, file, out);
}

// The text for a stream and a file that is lent room for every text.
// This and the next one stand in printout too, over its own text: one function for both would be lent `write_job` as a closure over a job and a
// writer. Its contract would say of every job, and of every writer with room, that the closure may be called and what it appends, and that a
// broken job's text is its refusal's: three clauses over a ghost text, for this match and the test below.
fn write_reloaded(stream: &[u8], file: &[u8], output: &mut Writer<'_>)
    requires { output.old.at + most_bytes ≤ length output.old.bytes.now }
    ensures { Appends output.old output.new (reloaded stream.now file.now) }
{
    let mut coordinates = [0.0; job_room::COORDINATES];
    match stream_reader::read_job(stream, &mut coordinates) {
        Ok(job) => write_job(job, file, output),
        Err(refusal) => print_texts::write_refusal(refusal, output),
    }
}

// What is printed for a stream and a file, written to the front of `output`, which is to have `job_room::TEXT` bytes at least: no text is
// longer. The answer is how many bytes were written.
pub fn reload(stream: &[u8], file: &[u8], output: &mut [u8]) -> Result<usize, Refusal>
    ensures answer { printed_answer result ≡ print_answer_lem (reloaded stream.now file.now) output.old }
    ensures output { output.new ≡ print_output (reloaded stream.now file.now) output.old }
{
    if output.len() < job_room::TEXT {
        return Err(Refusal::ShortList);
    }
    let mut writer = Writer {
        bytes: output,
        at: 0,
    };
    write_reloaded(stream, file, &mut writer);
    Ok(writer.at)
}
