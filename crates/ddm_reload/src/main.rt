// The program `ddm_reload JOB FILE`: reads a job stream and the file of a stored tree, and writes the tree that is loaded, or a refusal,
// to standard output.
#![tactic(auto)]

ghost use Rattle.std.specs.Prelude.{◌≡◌, ◌≤◌, ◌<◌, length, take, IfOk, IfSome, OnOk, OnErr, IsErr};
ghost use Rattle.std.specs.Io.KnownBytes.{Appends};
ghost use Rattle.stored.specs.Programs.{most_file, reloaded};
ghost use Rattle.stream_laws.specs.Sizes.{decisive, most_bytes};
ghost use Rattle.program_input.specs.Input.{Stopped, MayBe};
ghost use Rattle.ddm_reload.specs.Output.{ReloadedFrom};

use job_room::{STREAM, TEXT};
use program_input::{Failure, Front, Input};
use std::io;
use std::io::{Read, Write};
use std::process::ExitCode;
use std::rt::{Env, Files};

// The room for a file: a longer one is refused like one that fills it (`front-of-file` of reload_laws).
const FILE: usize = reload::MOST_FILE + 1;

// Reads a file, where it could be opened.
fn read_opened<F: Read + Drop>(opened: io::Result<F>, input: &mut [u8]) -> io::Result<Front>
    ensures stopped { IfOk result (λ front. Stopped (length input.new) front) }
    ensures unread { OnErr opened (IsErr result) }
{
    let mut file = opened?;
    program_input::read_input(&mut file, input)
}

// Reads the file that the argument number i names, which holds `what`.
fn read_argument<R: Env + Files + Alloc>(
    rt: &R,
    i: usize,
    what: &'static str,
    input: &mut [u8],
) -> Result<Front, Failure<'static>>
    ensures { IfOk result (λ front. Stopped (length input.new) front) }
{
    read_opened(program_input::open_argument(rt, i), input).map_err(|error| Failure { what, error })
}

// What is printed for the bytes of a stream and of a file, at the front of `text`. ddm_tree has one that calls `printout`: they share the
// `unwrap` alone. The text is a slice, with its least length asked, as in ddm_tree.
fn print_bytes(stream: &[u8], file: &[u8], text: &mut [u8]) -> usize
    requires { most_bytes ≤ length text.old }
    ensures fits { result ≤ length text.new }
    ensures same { take result text.new ≡ reloaded stream.now file.now }
{
    // the list is long enough for every text
    reload::reload(stream, file, text).unwrap()
}

// What is printed for the two inputs that were read, at the front of `text`. The lists that were read to hold the bytes that decide it. Each
// program has a function of its own here: what is promised is its own program's text.
fn reply_to(job: Input<'_>, tree: Input<'_>, text: &mut [u8]) -> usize
    requires job_value { Stopped (length job.bytes.now) job.front × (decisive ≤ length job.bytes.now) }
    requires tree_value { Stopped (length tree.bytes.now) tree.front × (most_file < length tree.bytes.now) }
    requires most_bytes_in_bounds { most_bytes ≤ length text.old }
    ensures fits { result ≤ length text.new }
    ensures same { ReloadedFrom job.entry.front job.entry.bytes.now tree.entry.front tree.entry.bytes.now (take result text.new) }
{
    print_bytes(job.read(), tree.read(), text)
}

// Writes what is printed for the two inputs: `write_all`, which asks here for this program's text. Without that it would be `write_all` itself,
// with its failure named.
fn write_reply<W: Write>(
    out: &mut W,
    job: Input<'_>,
    tree: Input<'_>,
    text: &[u8],
) -> Result<(), Failure<'static>>
    requires { ReloadedFrom job.front job.bytes.now tree.front tree.bytes.now text.now }
    ensures { OnOk result (Appends (W.contents out.old) (W.contents out.new) text.now) }
{
    out.write_all(text).map_err(|error| Failure {
        what: "standard output",
        error,
    })
}

// Reads the stream and the file that the arguments name, and writes what is printed for them.
fn print_reloaded<R: Env + Files + Alloc, W: Write>(
    rt: &R,
    out: &mut W,
) -> Result<(), Failure<'static>> {
    let mut stream = [0u8; STREAM];
    let front = read_argument(rt, 1, "job stream", &mut stream)?;
    let job = Input {
        bytes: &stream,
        front,
    };
    let mut file = program_input::room::<FILE>();
    let front = read_argument(rt, 2, "stored tree", &mut file)?;
    let tree = Input {
        bytes: &file,
        front,
    };
    let mut text = program_input::room::<TEXT>();
    let count = reply_to(job, tree, &mut text);
    write_reply(out, job, tree, &text[..count])
}

fn main(rt: HostRuntime) -> ExitCode {
    let done = print_reloaded(&rt, &mut rt.stdout());
    program_input::end(&rt, done)
}
