// A call of add, retire or close on the table that a record gives, and its outcome.
#![tactic(auto)]

use call_records::Fields;
use points::Points;
use refusal::Refusal;
use table::{Head, Table, Wells};

// The most coordinates of a point, and the most entries of a rename list.
const POINT: usize = 5;

const RENAME: usize = 44;

// Whether the answer of an edit stands next, with the table after it, and the record ends there. An edit that names no slot has 0 there.
fn outcome_agrees(
    fields: &mut Fields<'_>,
    answer: Result<usize, Refusal>,
    table: Table<'_>,
) -> Option<bool> {
    Some(
        fields.number_agrees(answer)?
            && fields.count()? == table.head.slots
            && fields.count()? == table.head.live
            && fields.agrees(table.points.coordinates)?
            && fields.agrees(table.flags)?
            && fields.ended(),
    )
}

// Whether the add that stands next has the outcome behind it. `None` says that the record is cut, or that a list has more entries than
// there is room for.
pub fn add_agrees(fields: &mut Fields<'_>, mut head: Head, wells: &mut Wells<'_>) -> Option<bool> {
    let mut room = [9.0; POINT];
    let point = fields.list(&mut room)?;
    let answer = table::add(&mut head, wells, point);
    outcome_agrees(fields, answer, wells.table(head))
}

// The same of a retirement.
pub fn retire_agrees(
    fields: &mut Fields<'_>,
    mut head: Head,
    flags: &mut [u8],
    points: Points<'_>,
) -> Option<bool> {
    let slot = fields.count()?;
    let answer = table::retire(&mut head, flags, points, slot);
    let table = Table {
        head,
        flags,
        points,
    };
    outcome_agrees(fields, answer.map(|_| 0), table)
}

// The same of a closing, whose rename list stands there before the call and after it.
pub fn close_agrees(
    fields: &mut Fields<'_>,
    mut head: Head,
    wells: &mut Wells<'_>,
) -> Option<bool> {
    let mut room = [call_records::NINE; RENAME];
    let rename = fields.list(&mut room)?;
    let answer = table::close(&mut head, wells, rename);
    Some(fields.agrees(rename)? && outcome_agrees(fields, answer, wells.table(head))?)
}
