// A call of the build over slots on the table that a record gives, in lists of the given lengths that hold 9, and its outcome.
#![tactic(auto)]

use call_records::{Fields, NINE};
use config::DDMParams;
use table::Table;
use tree_lists::{Records, Room, TreeLists};

// The lists of a build over 16 live slots with 3 neighbours, and of one over a single slot with 65.
const ROWS: usize = 64;

const DOMAINS: usize = 485;

const BOXES: usize = 679;

const BORROWED: usize = 400;

// Whether the working room is as it was.
fn untouched(room: &Room<'_>) -> bool {
    room.floats.iter().all(|&x| x == 9.0) && room.wholes.iter().all(|&n| n == NINE)
}

// Whether the build that stands next has the outcome behind it: its answer, the lists of its tree and those of its records. A refused one
// leaves its working room too. `None` says that the record is cut, or that a list has more entries than there is room for.
pub fn agrees(fields: &mut Fields<'_>, table: Table<'_>, params: DDMParams) -> Option<bool> {
    let lists = TreeLists {
        level_points: &mut [NINE; ROWS],
        internals: &mut [NINE; ROWS],
        domains: &mut [NINE; DOMAINS],
        boxes: &mut [9.0; BOXES],
        borrowed: &mut [NINE; BORROWED],
    };
    let mut lists = fields.lend_lists(lists)?;
    let mut floats = [9.0; call_records::FLOATS];
    let mut wholes = [NINE; call_records::WHOLES];
    let mut room = Room {
        floats: fields.lend(&mut floats)?,
        wholes: fields.lend(&mut wholes)?,
    };
    let mut cuts = [NINE; call_records::NODES];
    let mut planes = [9.0; call_records::NODES];
    let mut records = Records {
        cuts: fields.lend(&mut cuts)?,
        planes: fields.lend(&mut planes)?,
    };
    let answer = table_build::build_slots(table, params, &mut lists, &mut room, &mut records);
    let kept = answer.is_ok() || untouched(&room);
    Some(
        kept && fields.answer_agrees(answer)?
            && fields.lists_agree(lists.read())?
            && fields.agrees(records.cuts)?
            && fields.agrees(records.planes)?
            && fields.ended(),
    )
}
