// Closing the gaps of a table of wells: the live wells moved down, in order and in place.
#![tactic(auto)]

ghost use Rattle.std.specs.Prelude.{◌≡◌, cond, ◌+◌, ◌*◌, ◌≤◌, ◌<◌, length, set, replicate};
ghost use Rattle.lists.specs.Lists.{one_if, put, part};
ghost use Rattle.definition.specs.Table.{flagged};
ghost use Rattle.definition.specs.Closing.{close_verdict};
ghost use Rattle.refusal.specs.Refusals.{verdict_of};
ghost use Rattle.table_checks.specs.Tables.{table_in, wells_in, SameWells};
ghost use Rattle.table_edits.specs.Edits.{table_after};
ghost use Rattle.closing.specs.Outcome.{Closed, count_answer};
ghost use Rattle.closing.specs.Passed.{live_below_lem, live_parts, renames};

use refusal::Refusal;
use table_checks::{Head, Table, Wells};

// Copies a point down, one coordinate after the other: what was written is not read again. A loop, since `copy_within` becomes a call of
// `memmove`, which the archive for C would need from outside.
fn move_point(coordinates: &mut [f64], from: usize, to: usize, dimensions: usize)
    requires { (to ≤ from) × (from + dimensions ≤ length coordinates.old) }
    ensures { coordinates.new ≡ put coordinates.old to (part coordinates.old from dimensions) }
{
    for i in 0..dimensions {
        coordinates[to + i] = coordinates[from + i];
    }
}

// One slot of the pass: its new slot is noted, and a live one moves down to slot `to`. Returns where the next live one goes. A retired one
// gets the slot count for a new slot, and no None: the rename list is of plain numbers, and the definition writes it so.
fn move_slot(
    slot: usize,
    to: usize,
    slots: usize,
    wells: &mut Wells<'_>,
    rename: &mut [usize],
) -> usize
    requires { (to ≤ slot) × (slot < length wells.old.flags.now) × (slot * wells.old.dimensions + wells.old.dimensions ≤ length wells.old.coordinates.now) × (slot < length rename.old) }
    ensures same { SameWells wells.old wells.new }
    ensures next { result ≡ to + one_if (flagged wells.old.flags.now slot) }
    ensures flags { wells.new.flags.now ≡ cond (flagged wells.old.flags.now slot) (set wells.old.flags.now to 1) wells.old.flags.now }
    ensures coordinates { wells.new.coordinates.now ≡ cond (flagged wells.old.flags.now slot) (put wells.old.coordinates.now (to * wells.old.dimensions) (part wells.old.coordinates.now (slot * wells.old.dimensions) wells.old.dimensions)) wells.old.coordinates.now }
    ensures rename { rename.new ≡ set rename.old slot (cond (flagged wells.old.flags.now slot) to slots) }
{
    let dimensions = wells.dimensions;
    let flag = wells.flags[slot];
    if flag == 0 {
        rename[slot] = slots;
        return to;
    }
    let next = to + 1;
    rename[slot] = to;
    wells.flags[to] = 1;
    move_point(
        wells.coordinates,
        slot * dimensions,
        to * dimensions,
        dimensions,
    );
    next
}

// The one pass over the slots. Below the slot that is written next all is final; from the slot that is read next on all is as found.
fn move_down(slots: usize, wells: &mut Wells<'_>, rename: &mut [usize])
    requires { (slots ≤ length wells.old.flags.now) × (slots * wells.old.dimensions ≤ length wells.old.coordinates.now) × (slots ≤ length rename.old) }
    ensures same { SameWells wells.old wells.new }
    ensures flags { wells.new.flags.now ≡ put wells.old.flags.now 0 (replicate (length (live_below_lem wells.old.flags.now slots)) 1) }
    ensures coordinates { wells.new.coordinates.now ≡ put wells.old.coordinates.now 0 (live_parts wells.old.dimensions wells.old.coordinates.now wells.old.flags.now slots) }
    ensures rename { rename.new ≡ put rename.old 0 (renames wells.old.flags.now slots slots) }
{
    let mut to = 0;
    // by the index: the slots that are moved are read in the lists that are written
    for i in 0..slots {
        to = move_slot(i, to, slots, wells, rename);
    }
}

// What closing tries: 1, 11 for a rename list that is short or for the coordinates, and 27.
#[tactic(auto, unfolding(definition::specs::Refusals::verdict, definition::specs::Closing::close_verdict))]
fn close_fault(table: Table<'_>, rename: &[usize]) -> Result<(), Refusal>
    ensures { verdict_of result ≡ close_verdict table.entry.points.dimensions (table_in table.entry) (length rename.now) }
{
    point_checks::check_dimension(table.points.dimensions)?;
    if rename.len() < table.head.slots {
        return Err(Refusal::ShortList);
    }
    table_edits::table_fault(table)?;
    Ok(())
}

// Closes the gaps of the table, and answers the head after it: 1, 11 and 27 are tried before anything is written.
pub fn closed(head: Head, wells: &mut Wells<'_>, rename: &mut [usize]) -> Result<Head, Refusal>
    ensures same { SameWells wells.old wells.new }
    ensures outcome { Closed wells.old.dimensions (wells_in head wells.old) (table_after (λ h. h) head wells.new.flags.now wells.new.coordinates.now result) rename.old rename.new (count_answer result) }
{
    let Head { slots, live } = head;
    let dimensions = wells.dimensions;
    close_fault(wells.table(head), rename)?;
    move_down(slots, wells, rename);
    let gone = slots - live;
    wells.flags[live..slots].fill(0);
    boxes::put_zeros(wells.coordinates, live * dimensions, gone * dimensions);
    Ok(Head { slots: live, live })
}
