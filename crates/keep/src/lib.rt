// The file of the tree of a job stream, as a function on lists: the stream's bytes in, the file's bytes out, or a refusal.
#![tactic(auto)]

ghost use Rattle.std.specs.Prelude.{◌≡◌, ◌≤◌, length};
ghost use Rattle.stored.specs.Programs.{kept_job, kept};
ghost use Rattle.reload_laws.specs.Sizes.{most_file_bytes};
ghost use Rattle.stream_reader.specs.Reading.{job_is};
ghost use Rattle.keep.specs.Keeping.{keep_answer, keep_output, keep_report};

use job_room::{JobRecords, JobRoom};
use refusal::Refusal;
use stream_reader::Job;

// The room that suffices for every file (`kept-fits` of reload_laws).
pub const MOST_FILE_BYTES: usize = 32768;

// The file of a job's tree, or the build's refusal. The lists suffice for the largest job, and `file` is a slice whose length `keep` has tested.
// The answer is how many bytes the file has.
fn keep_job(job: Job<'_>, file: &mut [u8]) -> Result<usize, Refusal>
    requires { most_file_bytes ≤ length file.old }
    ensures answer { keep_report result ≡ keep_answer (kept_job (job_is job.entry)) file.old }
    ensures output { file.new ≡ keep_output (kept_job (job_is job.entry)) file.old }
{
    let Job { points, params } = job;
    let mut lists = job_room::zero_lists();
    let mut lists = lists.lend();
    let mut room = JobRoom::zeros();
    let mut room = room.lend();
    let mut records = JobRecords::zeros();
    let mut records = records.lend();
    let tree = ddm::build(points, params, &mut lists, &mut room, &mut records)?;
    store::store_tree(points, params, tree, lists.read(), file)
}

// What is kept of a stream: the file of its tree at the front of `file`, which is to have 32,768 bytes at least, since no file is longer;
// or a refusal, and `file` stays as it was. The answer is how many bytes the file has.
pub fn keep(stream: &[u8], file: &mut [u8]) -> Result<usize, Refusal>
    ensures answer { keep_report result ≡ keep_answer (kept stream.now) file.old }
    ensures output { file.new ≡ keep_output (kept stream.now) file.old }
{
    if file.len() < MOST_FILE_BYTES {
        return Err(Refusal::ShortList);
    }
    let mut coordinates = [0.0; job_room::COORDINATES];
    let job = stream_reader::read_job(stream, &mut coordinates)?;
    keep_job(job, file)
}
