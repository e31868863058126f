// The table of wells with its head where the caller keeps it: each call is the edit, and the head after it. `added`, `retired` and `closed`
// answer that head; these write it where it is kept, the form that document 02 names. The library has promised both.
#![tactic(auto)]

ghost use Rattle.std.specs.Prelude.{◌≡◌};
ghost use Rattle.table_checks.specs.Tables.{table_of, wells_in, SameWells};
ghost use Rattle.table_edits.specs.Edits.{Added, Retired};
ghost use Rattle.closing.specs.Outcome.{Closed};
ghost use Rattle.table.specs.Answers.{slot_answer, plain_answer};

use points::Points;
use refusal::Refusal;
pub use table_checks::{Head, Table, Wells};

// Adds a point to the table. The slot that it takes.
pub fn add(head: &mut Head, wells: &mut Wells<'_>, point: &[f64]) -> Result<usize, Refusal>
    ensures same { SameWells wells.old wells.new }
    ensures outcome { Added wells.old.dimensions (wells_in head.old wells.old) (wells_in head.new wells.new) point.now (slot_answer result) }
{
    let edited = table_edits::added(*head, wells, point)?;
    *head = edited.head;
    Ok(edited.slot)
}

// Retires a slot of the table. It takes no `Wells`: the coordinates are only read, and a caller may have them by `&` alone.
pub fn retire(
    head: &mut Head,
    flags: &mut [u8],
    points: Points<'_>,
    slot: usize,
) -> Result<(), Refusal>
    ensures { Retired points.entry.dimensions (table_of head.old.slots head.old.live flags.old points.entry.coordinates.now) (table_of head.new.slots head.new.live flags.new points.entry.coordinates.now) slot (plain_answer result) }
{
    *head = table_edits::retired(*head, flags, points, slot)?;
    Ok(())
}

// Closes the gaps of the table, and writes each slot's new one to the front of the rename list. The new slot count.
// Like `add` but for its edit: one function that is passed the edit as a closure would be longer than the two or three lines of each.
pub fn close(head: &mut Head, wells: &mut Wells<'_>, rename: &mut [usize]) -> Result<usize, Refusal>
    ensures same { SameWells wells.old wells.new }
    ensures outcome { Closed wells.old.dimensions (wells_in head.old wells.old) (wells_in head.new wells.new) rename.old rename.new (slot_answer result) }
{
    *head = closing::closed(*head, wells, rename)?;
    Ok(head.slots)
}
