// Replays stored calls of the loader and the writer: reads the file that the first argument names, makes each call there, and says how
// many of the calls differ from their stored outcomes, in their answers or in an entry of a list. tools/make_stored_calls.py makes the
// file, and its head says the form of a record.
#![tactic(auto)]

use call_records::Fields;
use record_file::Tally;
use std::io;

// The room for a record.
const ROOM: usize = 4096;

// What a record calls. The codes are those of this program's records: in those of run_table_calls 1 and 2 are other calls.
#[derive(Clone, Copy)]
enum Kind {
    Load,
    Store,
}

// A code that names no kind of record. Each program has its own, since the codes are.
#[derive(Clone, Copy)]
struct UnknownKind;

impl TryFrom<u8> for Kind {
    type Error = UnknownKind;

    fn try_from(code: u8) -> Result<Self, UnknownKind> {
        match code {
            1 => Ok(Kind::Load),
            2 => Ok(Kind::Store),
            _ => Err(UnknownKind),
        }
    }
}

// Whether the call of a record has the record's outcome. `None` says that it is no whole record of a call.
fn outcome_agrees(record: &[u8]) -> Option<bool> {
    let mut fields = Fields::of(record);
    match Kind::try_from(fields.byte()?).ok()? {
        Kind::Load => replay_loads::agrees(&mut fields),
        Kind::Store => replay_stores::agrees(&mut fields),
    }
}

// Room and test are the program's own, the rest is record_file's. One function over both would be generic over the runtime, the room's length and
// the test, and be no shorter than the three lines that it would save in each.
fn main(rt: HostRuntime) -> io::Result<()> {
    let mut file = program_input::open_argument(&rt, 1)?;
    let mut room = [0u8; ROOM];
    let Tally { calls, differ, .. } = record_file::replay(&mut file, &mut room, outcome_agrees);
    // and not the tally, which names the first that differs too
    println!(rt; "{calls} calls, {differ} differ")
}
