// The refusals of a build over the live slots of a table, tried in their order before anything is written.
#![tactic(auto)]

ghost use Rattle.std.specs.Prelude.{◌≡◌, ◌||◌, [], ◌∷◌, ◌*◌, ◌≤◌, length};
ghost use Rattle.lists.specs.Lists.{keep, from};
ghost use Rattle.definition.specs.Packed.{build_stated};
ghost use Rattle.definition.specs.Refusals.{most_points, most_neighbours, verdict, build_short};
ghost use Rattle.definition.specs.Table.{flagged, coordinates_short};
ghost use Rattle.definition.specs.Slots.{rows_not_finite, slots_verdict};
ghost use Rattle.config.specs.Params.{settings_of_lem};
ghost use Rattle.build_sizes.specs.Sizes.{sizes_of};
ghost use Rattle.refusal.specs.Refusals.{verdict_of};
ghost use Rattle.table_checks.specs.Tables.{table_in};

use build_sizes::BuildSizes;
use config::{DDMParams, Settings};
use refusal::Refusal;
use table_checks::Table;

// Whether a list is shorter than the live rows ask for, or the coordinates than the capacity does.
pub fn any_short(table: Table<'_>, lent: BuildSizes, neighbours: usize) -> bool
    requires { (table.points.dimensions ≤ 3) × (table.head.live ≤ most_points) × (neighbours ≤ most_neighbours) }
    ensures { result ≡ (build_short (sizes_of lent) (build_stated table.entry.points.dimensions table.entry.head.live neighbours) || coordinates_short table.entry.points.dimensions (table_in table.entry)) }
{
    build_checks::is_short(lent, table.points.dimensions, table.head.live, neighbours)
        || table.is_short()
}

// The coordinates of the live slots: 10 at the place of the first that is not finite. Not by `check_finite`, whose place would count from the
// slot's own first coordinate.
pub fn judge_slots(table: Table<'_>) -> Result<(), Refusal>
    requires { (table.head.slots ≤ length table.flags.now) × (table.head.slots * table.points.dimensions ≤ length table.points.coordinates.now) × (table.head.slots ≤ most_points) × (table.points.dimensions ≤ 3) }
    ensures { verdict_of result ≡ verdict (rows_not_finite table.entry.points.dimensions table.entry.points.coordinates.now (keep (flagged table.entry.flags.now) (from 0 table.entry.head.slots)) ∷ []) }
{
    let points = table.points;
    for (i, &flag) in table.flags[..table.head.slots].iter().enumerate() {
        if flag != 0 {
            if let Some(bad) = finite::first_not_finite(points.point(i)) {
                return Err(Refusal::NotFinite(i * points.dimensions + bad));
            }
        }
    }
    Ok(())
}

// The tests of a build over the live slots of a table, with lists of these lengths.
pub fn check_slots(table: Table<'_>, params: DDMParams, lent: BuildSizes) -> Result<(), Refusal>
    ensures { verdict_of result ≡ slots_verdict (settings_of_lem table.entry.points.dimensions params) (table_in table.entry) (sizes_of lent) }
{
    table.sound().ok_or(Refusal::UnsoundTable)?;
    let dimensions = table.points.dimensions;
    build_checks::rows_fault(table.head.live, Settings { dimensions, params })?;
    if any_short(table, lent, params.overlap_knn as usize) {
        return Err(Refusal::ShortList);
    }
    judge_slots(table)
}
