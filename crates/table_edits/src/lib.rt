// Adding a well to a table and retiring one: what is written, and the head after it, which the caller keeps.
#![tactic(auto)]

ghost use Rattle.std.specs.Prelude.{◌≡◌, not, [], ◌∷◌, eqb, length, IfOk};
ghost use Rattle.definition.specs.Refusals.{on, verdict, not_finite_lem};
ghost use Rattle.definition.specs.Table.{next_slot, table_tests};
ghost use Rattle.refusal.specs.Refusals.{verdict_of};
ghost use Rattle.table_checks.specs.Tables.{head_in, table_of, table_in, wells_in, SameWells};
ghost use Rattle.table_edits.specs.Edits.{edit_answer, head_answer, table_after, Added, Retired};

use points::Points;
use refusal::Refusal;
use table_checks::{Head, Table, Wells};

// What an accepted add answers: the slot that it takes, and the head after it.
#[derive(Clone, Copy)]
pub struct Edited {
    pub slot: usize,
    pub head: Head,
}

// What every edit tries first: 1, 11 and 27. Where none of them is met, the slot that an add takes.
#[tactic(auto, unfolding(definition::specs::Refusals::verdict))]
pub fn table_fault(table: Table<'_>) -> Result<usize, Refusal>
    ensures verdict { verdict_of result ≡ verdict (table_tests table.entry.points.dimensions (table_in table.entry)) }
    ensures next { IfOk result (λ next. next ≡ next_slot (head_in table.entry.head) table.entry.flags.now) }
{
    point_checks::check_dimension(table.points.dimensions)?;
    if table.is_short() {
        return Err(Refusal::ShortList);
    }
    table.sound().ok_or(Refusal::UnsoundTable)
}

// What is tried of a point: 7 and 10.
#[tactic(auto, unfolding(definition::specs::Refusals::verdict))]
fn point_fault(point: &[f64], dimensions: usize) -> Result<(), Refusal>
    ensures { verdict_of result ≡ verdict (on (not (eqb (length point.now) dimensions)) 7 ∷ not_finite_lem point.now ∷ []) }
{
    if point.len() != dimensions {
        return Err(Refusal::MissingCoordinate);
    }
    point_checks::check_finite(point)
}

// Adds a point to the table: 1, 11, 27, 7, 10 and 21 are tried before anything is written.
pub fn added(head: Head, wells: &mut Wells<'_>, point: &[f64]) -> Result<Edited, Refusal>
    ensures same { SameWells wells.old wells.new }
    ensures outcome { Added wells.old.dimensions (wells_in head wells.old) (table_after (λ e. e.head) head wells.new.flags.now wells.new.coordinates.now result) point.now (edit_answer result) }
{
    let Head { slots, live } = head;
    let dimensions = wells.dimensions;
    let table = wells.table(head);
    let slot = table_fault(table)?;
    point_fault(point, dimensions)?;
    let room = table.capacity();
    if slot == slots && slots == room {
        return Err(Refusal::FullTable);
    }
    wells.flags[slot] = 1;
    stretches::put_values(wells.coordinates, slot * dimensions, point);
    Ok(Edited {
        slot,
        head: Head {
            slots: slots.max(slot + 1),
            live: live + 1,
        },
    })
}

// Retires a slot of the table, and answers the head after it: 1, 11, 27 and 22 are tried before anything is written. It takes no `Wells`: the
// coordinates are only read, and a caller may have them by `&` alone.
pub fn retired(
    head: Head,
    flags: &mut [u8],
    points: Points<'_>,
    slot: usize,
) -> Result<Head, Refusal>
    ensures { Retired points.entry.dimensions (table_of head.slots head.live flags.old points.entry.coordinates.now) (table_after (λ h. h) head flags.new points.entry.coordinates.now result) slot (head_answer result) }
{
    let Head { slots, live } = head;
    table_fault(Table {
        head,
        flags,
        points,
    })?;
    if slots <= slot || flags[slot] == 0 {
        return Err(Refusal::NoLiveSlot);
    }
    flags[slot] = 0;
    Ok(Head {
        slots,
        live: live - 1,
    })
}
