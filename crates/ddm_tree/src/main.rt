// The program: reads a job stream from standard input and writes its printout to standard output.
#![tactic(auto)]

ghost use Rattle.std.specs.Prelude.{◌≡◌, ◌≤◌, length, take, IfSome, OnOk};
ghost use Rattle.std.specs.Io.KnownBytes.{Appends};
ghost use Rattle.formats.specs.Printout.{printout};
ghost use Rattle.stream_laws.specs.Sizes.{decisive, most_bytes};
ghost use Rattle.program_input.specs.Input.{Stopped};
ghost use Rattle.ddm_tree.specs.Output.{PrintoutFor};

use job_room::{STREAM, TEXT};
use program_input::{Failure, Input};
use std::io;
use std::io::{Read, Write};
use std::process::ExitCode;

// The printout of the bytes, at the front of `text`. ddm_reload has one that calls `reload`: they share the `unwrap` alone. The text is a
// slice, with its least length asked: an array would ask for one length.
fn print_bytes(bytes: &[u8], text: &mut [u8]) -> usize
    requires { most_bytes ≤ length text.old }
    ensures fits { result ≤ length text.new }
    ensures same { take result text.new ≡ printout bytes.now }
{
    // the list is long enough for every text
    printout::printout(bytes, text).unwrap()
}

// The printout for what was read, at the front of `text`. The list that was read to holds the decisive bytes of every stream. Each program has
// a function of its own here: what is promised is its own program's text.
fn reply_to(input: Input<'_>, text: &mut [u8]) -> usize
    requires { Stopped (length input.bytes.now) input.front × (decisive ≤ length input.bytes.now) × (most_bytes ≤ length text.old) }
    ensures fits { result ≤ length text.new }
    ensures same { PrintoutFor input.entry.front input.entry.bytes.now (take result text.new) }
{
    print_bytes(input.read(), text)
}

// Writes the printout for what was read: `write_all`, which asks here for this program's text. Without that it would be `write_all` itself.
fn write_reply<W: Write>(out: &mut W, input: Input<'_>, text: &[u8]) -> io::Result<()>
    requires { PrintoutFor input.front input.bytes.now text.now }
    ensures { OnOk result (Appends (W.contents out.old) (W.contents out.new) text.now) }
{
    out.write_all(text)
}

// Reads a stream and writes its printout. Where the bytes of both sides are known, the printout of the reader's bytes is added to the writer's.
fn print_stream<R: Read, W: Write>(reader: &mut R, out: &mut W) -> Result<(), Failure<'static>>
    ensures { OnOk result (IfSome (R.remaining reader.old)
        (λ stream. Appends (W.contents out.old) (W.contents out.new) (printout stream))) }
{
    let mut bytes = [0u8; STREAM];
    let mut text = program_input::room::<TEXT>();
    let front = program_input::read_input(reader, &mut bytes).map_err(|error| Failure {
        what: "standard input",
        error,
    })?;
    let input = Input {
        bytes: &bytes,
        front,
    };
    let count = reply_to(input, &mut text);
    write_reply(out, input, &text[..count]).map_err(|error| Failure {
        what: "standard output",
        error,
    })
}

fn main(rt: HostRuntime) -> ExitCode {
    let done = print_stream(&mut rt.stdin(), &mut rt.stdout());
    program_input::end(&rt, done)
}
