// The program: reads a job stream from standard input and writes the file of its tree to standard output. A refusal goes to standard
// error, and then nothing is written to standard output.
#![tactic(auto)]

ghost use Rattle.std.specs.Prelude.{◌≡◌, ◌≤◌, length, IfSome, OnOk};
ghost use Rattle.std.specs.Io.KnownBytes.{Appends};
ghost use Rattle.stored.specs.Programs.{nothing, kept};
ghost use Rattle.stream_laws.specs.Sizes.{decisive};
ghost use Rattle.reload_laws.specs.Sizes.{most_file_bytes};
ghost use Rattle.refusal.specs.Refusals.{as_refusal};
ghost use Rattle.keep.specs.Keeping.{Found};
ghost use Rattle.program_input.specs.Input.{Stopped};
ghost use Rattle.ddm_keep.specs.Output.{KeptFor, FileFor, RefusalFor, RefusalAdded, KeptIn, Replies};

use bytes_out::Writer;
use job_room::STREAM;
use program_input::{Failure, Input};
use refusal::Refusal;
use std::io;
use std::io::{Read, Write};
use std::process::ExitCode;

// The room for the line of a refusal: none has over 53 bytes (`refusal-long` of stream_laws).
const LINE: usize = 64;

// The file of the bytes' tree, at the front of `file`, or a refusal. The answer is how many bytes the file has. A function of its own, for its one
// clause: what `reply_to` promises goes by it. The file is a slice, with its least length asked: an array would ask for one length.
fn keep_bytes(bytes: &[u8], file: &mut [u8]) -> Result<usize, Refusal>
    requires { most_file_bytes ≤ length file.old }
    ensures { Found (kept bytes.now) file.new result }
{
    keep::keep(bytes, file)
}

// The same for what was read. The list that was read to holds the decisive bytes of every stream. Each program has a function of its own here:
// what is promised is its own program's file.
fn reply_to(input: Input<'_>, file: &mut [u8]) -> Result<usize, Refusal>
    requires { Stopped (length input.bytes.now) input.front × (decisive ≤ length input.bytes.now) × (most_file_bytes ≤ length file.old) }
    ensures { Replies input.entry.front input.entry.bytes.now file.new result }
{
    keep_bytes(input.read(), file)
}

// Writes the file for what was read: `write_all`, which asks here for the file's bytes, as the next one asks for the refusal's text.
fn write_file<W: Write>(out: &mut W, input: Input<'_>, bytes: &[u8]) -> io::Result<()>
    requires { FileFor input.front input.bytes.now bytes.now }
    ensures { OnOk result (Appends (W.contents out.old) (W.contents out.new) bytes.now) }
{
    out.write_all(bytes)
}

// Writes the text of the refusal for what was read.
fn write_text<W: Write>(errors: &mut W, input: Input<'_>, text: &[u8]) -> io::Result<()>
    requires { RefusalFor input.front input.bytes.now text.now }
    ensures { OnOk result (Appends (W.contents errors.old) (W.contents errors.new) text.now) }
{
    errors.write_all(text)
}

// The same by the refusal.
fn write_refusal<W: Write>(errors: &mut W, input: Input<'_>, refusal: Refusal) -> io::Result<()>
    requires { KeptFor input.front input.bytes.now (nothing (as_refusal refusal)) }
    ensures { OnOk result (RefusalAdded input.entry.front input.entry.bytes.now (W.contents errors.old) (W.contents errors.new)) }
{
    let mut line = [0u8; LINE];
    let mut out = Writer {
        bytes: &mut line,
        at: 0,
    };
    print_texts::write_refusal(refusal, &mut out);
    let count = out.at;
    write_text(errors, input, &line[..count])
}

// Reads a stream and writes the file of its tree, or its refusal to `errors`. Where the bytes of each side are known, what is kept of the
// reader's bytes says which of the two writers has more, and what.
fn keep_stream<R: Read, W: Write, E: Write>(
    reader: &mut R,
    out: &mut W,
    errors: &mut E,
) -> Result<(), Failure<'static>>
    ensures { OnOk result (IfSome (R.remaining reader.old) (λ stream. KeptIn (kept stream)
        (W.contents out.old) (W.contents out.new) (E.contents errors.old) (E.contents errors.new))) }
{
    let mut bytes = [0u8; STREAM];
    let mut file = [0u8; keep::MOST_FILE_BYTES];
    let front = program_input::read_input(reader, &mut bytes).map_err(|error| Failure {
        what: "standard input",
        error,
    })?;
    let input = Input {
        bytes: &bytes,
        front,
    };
    let reply = reply_to(input, &mut file);
    match reply {
        Ok(count) => write_file(out, input, &file[..count]).map_err(|error| Failure {
            what: "standard output",
            error,
        }),
        Err(refusal) => write_refusal(errors, input, refusal).map_err(|error| Failure {
            what: "standard error",
            error,
        }),
    }
}

fn main(rt: HostRuntime) -> ExitCode {
    let done = keep_stream(&mut rt.stdin(), &mut rt.stdout(), &mut rt.stderr());
    program_input::end(&rt, done)
}
