// A file of stored calls, read and replayed record by record: a length of 4 bytes, and as many bytes.
#![tactic(auto)]

ghost use Rattle.std.specs.Prelude.{◌≤◌, length, Some, IfOk, IfSome};
ghost use Rattle.record_file.specs.Tallies.{FirstOf, tally_text};

use program_input::Front;
use std::io::{ErrorKind, Read};
use std::{fmt, io};

// More records than this are not replayed.
const MOST: u64 = 100000;

// How many calls were made, how many of them differ, and the first of those, counted from 1.
#[derive(Clone, Copy)]
pub struct Tally {
    pub calls: u64,
    pub differ: u64,
    pub first: Option<u64>,
}

// Why a record could not be read: the file or the room ends before it does.
fn cut() -> io::Error {
    io::Error::new(ErrorKind::UnexpectedEof, "a record is cut")
}

// Reads the next record to the front of `room`. The answer is how many bytes it has, or `None` where the file ended.
pub fn read_next<R: Read>(reader: &mut R, room: &mut [u8]) -> io::Result<Option<usize>>
    ensures { IfOk result (λ next. IfSome next (λ size. size ≤ length room.new)) }
{
    let mut front = [0u8; 4];
    match program_input::read_input(reader, &mut front)? {
        Front::Open(_) => {}
        Front::Ended(0) => return Ok(None),
        Front::Ended(_) => return Err(cut()),
    }
    let size = u32::from_le_bytes(front) as usize;
    if room.len() < size {
        return Err(cut());
    }
    match program_input::read_input(reader, &mut room[..size])? {
        Front::Open(_) => Ok(Some(size)),
        Front::Ended(_) => Err(cut()),
    }
}

// All records of the file: whether the call of each has the record's outcome, where `None` says that a record is no whole record of a call.
// One that cannot be read whole counts as one that differs, and is the last.
pub fn replay<R: Read, F: Fn(&[u8]) -> Option<bool>>(
    file: &mut R,
    room: &mut [u8],
    agrees: F,
) -> Tally
    requires { F.IsAlwaysCallable agrees }
    ensures most { result.calls ≤ 100000 }
    ensures differ { result.differ ≤ result.calls }
    ensures first { FirstOf result.calls result.differ result.first }
{
    let mut tally = Tally {
        calls: 0,
        differ: 0,
        first: None,
    };
    for calls in 0..MOST {
        let next = read_next(file, room);
        let same = match next {
            Ok(None) => break,
            Ok(Some(size)) => agrees(&room[..size]) == Some(true),
            Err(_) => false,
        };
        tally.calls = calls + 1;
        if !same {
            tally.differ += 1;
            tally.first = tally.first.or(Some(calls + 1));
        }
        if next.is_err() {
            break;
        }
    }
    tally
}

// The number of calls, and how many of them differ.
impl fmt::Display for Tally {
    ghost output = { λ t. Some (tally_text t.calls t.differ t.first) };

    fn fmt<W: fmt::Write>(&self, f: &mut fmt::Formatter<W>) -> fmt::Result {
        let Tally {
            calls,
            differ,
            first,
        } = *self;
        write!(f, "{calls} calls, {differ} differ")?;
        if let Some(first) = first {
            write!(f, ", the first is call {first}")?;
        }
        Ok(())
    }
}
