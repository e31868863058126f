// Replays stored calls of add, retire, close and the build over slots: reads the file that the first argument names, makes each call there,
// and says how many of the calls differ from their stored outcomes, in their answers, in the head or in an entry of a list, and which
// differs first. tools/make_table_calls.py makes the file, and its head says the form of a record.
#![tactic(auto)]

use call_records::Fields;
use points::Points;
use std::io;
use table::{Head, Table, Wells};

// The room for a record.
const ROOM: usize = 65536;

// The most entries of a table's lists in a record.
const FLAGS: usize = 40;

const COORDINATES: usize = 130;

// What a record calls. The codes are those of this program's records: in those of run_stored_calls 1 and 2 are other calls.
#[derive(Clone, Copy)]
enum Kind {
    Add,
    Retire,
    Build,
    Close,
}

// A code that names no kind of record. Each program has its own, since the codes are.
#[derive(Clone, Copy)]
struct UnknownKind;

impl TryFrom<u8> for Kind {
    type Error = UnknownKind;

    fn try_from(code: u8) -> Result<Self, UnknownKind> {
        match code {
            1 => Ok(Kind::Add),
            2 => Ok(Kind::Retire),
            3 => Ok(Kind::Build),
            4 => Ok(Kind::Close),
            _ => Err(UnknownKind),
        }
    }
}

// Whether the call of a record has the record's outcome. `None` says that it is no whole record of a call, or that its table has more
// entries than there is room for.
fn outcome_agrees(record: &[u8]) -> Option<bool> {
    let mut fields = Fields::of(record);
    let kind = Kind::try_from(fields.byte()?).ok()?;
    let settings = fields.settings()?;
    let mut room = [9.0; COORDINATES];
    let coordinates = fields.list(&mut room)?;
    let mut room = [9u8; FLAGS];
    let flags = fields.list(&mut room)?;
    let head = Head {
        slots: fields.count()?,
        live: fields.count()?,
    };
    let dimensions = settings.dimensions;
    match kind {
        Kind::Add => {
            let mut wells = Wells {
                flags,
                coordinates,
                dimensions,
            };
            replay_edits::add_agrees(&mut fields, head, &mut wells)
        }
        Kind::Retire => {
            let points = Points {
                coordinates,
                dimensions,
            };
            replay_edits::retire_agrees(&mut fields, head, flags, points)
        }
        Kind::Build => {
            let points = Points {
                coordinates,
                dimensions,
            };
            let table = Table {
                head,
                flags,
                points,
            };
            replay_builds::agrees(&mut fields, table, settings.params)
        }
        Kind::Close => {
            let mut wells = Wells {
                flags,
                coordinates,
                dimensions,
            };
            replay_edits::close_agrees(&mut fields, head, &mut wells)
        }
    }
}

// Room and test are the program's own, the rest is record_file's. One function over both would be generic over the runtime, the room's length and
// the test, and be no shorter than the three lines that it would save in each.
fn main(rt: HostRuntime) -> io::Result<()> {
    let mut file = program_input::open_argument(&rt, 1)?;
    let mut room = [0u8; ROOM];
    let tally = record_file::replay(&mut file, &mut room, outcome_agrees);
    println!(rt; "{tally}")
}
