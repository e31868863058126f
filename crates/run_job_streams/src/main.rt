// Replays stored job streams: reads the file that the first argument names, prints each stream there, and says how many printouts
// are not the stored ones. A record of the file is the stream's length and the answer's length (2 bytes each, the lowest first), the
// stream, and the answer. tools/make_job_streams.py makes the file.
#![tactic(auto)]

ghost use Rattle.std.specs.Prelude.{◌<◌, length, IfSome};

use job_room::TEXT;
use std::io;

// The room for a file.
const FILE: usize = 1835008;

// How many streams were printed, and how many of the printouts are not the stored ones. The replay is not the one of record_file: a record has two
// lengths of two bytes here, and the whole file is in memory.
#[derive(Clone, Copy)]
struct Tally {
    streams: u64,
    differ: u64,
}

// The first record of a file: its stream and its answer, and what stands behind it. `None` says that the file ends before it does.
fn split_record(file: &[u8]) -> Option<(&[u8], &[u8], &[u8])>
    ensures { IfSome result (λ p. length p.2.now < length file.now) }
{
    let ([a, b, c, d], rest) = file.split_first_chunk::<4>()?;
    let (stream, rest) = rest.split_at_checked(u16::from_le_bytes([*a, *b]) as usize)?;
    let (answer, rest) = rest.split_at_checked(u16::from_le_bytes([*c, *d]) as usize)?;
    Some((stream, answer, rest))
}

// Whether the printout of the stream is the answer.
fn agrees(stream: &[u8], answer: &[u8], text: &mut [u8]) -> bool {
    match printout::printout(stream, text) {
        Ok(count) => &text[..count] == answer,
        Err(_) => false,
    }
}

// All records of the file. A record that ends past the file counts as one that differs, and is the last.
fn replay(file: &[u8], text: &mut [u8]) -> Tally {
    let mut streams: u64 = 0;
    let mut differ: u64 = 0;
    let mut rest = file;
    // a record says how long it is: no counted loop
    while !rest.is_empty() {
        streams += 1;
        let Some((stream, answer, after)) = split_record(rest) else {
            differ += 1;
            break;
        };
        if !agrees(stream, answer, text) {
            differ += 1;
        }
        rest = after;
    }
    Tally { streams, differ }
}

fn main(rt: HostRuntime) -> io::Result<()> {
    let mut from = program_input::open_argument(&rt, 1)?;
    let mut file = program_input::room::<FILE>();
    let n = program_input::read_count(&mut from, &mut file)?;
    let mut text = program_input::room::<TEXT>();
    let Tally { streams, differ } = replay(&file[..n], &mut text);
    println!(rt; "{streams} streams, {differ} differ")
}
