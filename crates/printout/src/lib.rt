// What the program prints for a job stream, as a function on lists: bytes in, bytes out, and the count of them back.
#![tactic(auto)]

ghost use Rattle.std.specs.Prelude.{◌≡◌, ◌+◌, ◌≤◌, length};
ghost use Rattle.formats.specs.Printout.{job_text, printout as printed};
ghost use Rattle.stream_laws.specs.Sizes.{most_bytes};
ghost use Rattle.stream_reader.specs.Reading.{job_is};
ghost use Rattle.bytes_out.specs.Writing.{Appends};
ghost use Rattle.job_room.specs.Printing.{print_answer_lem, print_output, printed_answer};

use bytes_out::Writer;
use job_room::{JobRecords, JobRoom};
use refusal::Refusal;
use stream_reader::Job;

// The text of a job: of its tree, or of the build's refusal. The lists suffice for the largest job.
fn write_job(job: Job<'_>, out: &mut Writer<'_>)
    requires { out.old.at + most_bytes ≤ length out.old.bytes.now }
    ensures { Appends out.old out.new (job_text (job_is job.entry)) }
{
    let mut lists = job_room::zero_lists();
    let mut lists = lists.lend();
    let mut room = JobRoom::zeros();
    let mut room = room.lend();
    let mut records = JobRecords::zeros();
    let mut records = records.lend();
    let answer = ddm::build(job.points, job.params, &mut lists, &mut room, &mut records);
    print_tree::write_answer(answer, lists.read(), job.points.dimensions, out);
}

// The printout of a stream that is lent room for every printout.
// This and the next one stand in reload too, over its own text: one function for both would be lent `write_job` as a closure over a job and a
// writer. Its contract would say of every job, and of every writer with room, that the closure may be called and what it appends, and that a
// broken job's text is its refusal's: three clauses over a ghost text, for this match and the test below.
fn write_printout(input: &[u8], output: &mut Writer<'_>)
    requires { output.old.at + most_bytes ≤ length output.old.bytes.now }
    ensures { Appends output.old output.new (printed input.now) }
{
    let mut coordinates = [0.0; job_room::COORDINATES];
    match stream_reader::read_job(input, &mut coordinates) {
        Ok(job) => write_job(job, output),
        Err(refusal) => print_texts::write_refusal(refusal, output),
    }
}

// What the program prints for a stream, written to the front of `output`, which is to have `job_room::TEXT` bytes at least: no printout
// is longer. The answer is how many bytes were written.
pub fn printout(input: &[u8], output: &mut [u8]) -> Result<usize, Refusal>
    ensures answer { printed_answer result ≡ print_answer_lem (printed input.now) output.old }
    ensures output { output.new ≡ print_output (printed input.now) output.old }
{
    if output.len() < job_room::TEXT {
        return Err(Refusal::ShortList);
    }
    let mut writer = Writer {
        bytes: output,
        at: 0,
    };
    write_printout(input, &mut writer);
    Ok(writer.at)
}
