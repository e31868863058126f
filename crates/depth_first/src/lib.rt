// The leaves of a level, cut depth first, and the record of the cuts.
#![tactic(auto)]

ghost use Rattle.std.specs.Prelude.{◌≡◌, map, ◌+◌, ◌*◌, ◌^◌, ◌≤◌, ◌<◌, length};
ghost use Rattle.lists.specs.Lists.{put, joined};
ghost use Rattle.definition.specs.Points.{box_width_lem};
ghost use Rattle.definition.specs.Packed.{row_numbers};
ghost use Rattle.definition.specs.Cut.{leaves_of};
ghost use Rattle.definition.specs.Record.{record_of, whole_of, float_of};
ghost use Rattle.queue.specs.Rows.{domain_own, with_own};
ghost use Rattle.rows.specs.Rows.{GoodRows};
ghost use Rattle.tree_lists.specs.Lent.{SameLeafLists, SameRoom, SameRecords};

use cut_nodes::Next;
use points::Points;
use split::Level;
use tree_lists::{LeafLists, Records, Room, Start};

// Cuts the rows into the leaves of a level, which stand in their place in the end, packed by number. The domain rows from the first on
// get start and count of each, where the rows stand from `start.from` on in their list, and its depth; `boxes` gets their boxes from the
// first on, and both lists of the record its nodes from `start.node` on. The answer is the number of leaves. Of the room, `wholes` holds one
// number a row, first for the ordering and then for the packing, and behind them the table of the leaves, three each; `floats` their boxes
// from left to right. Rows and boxes come one by one, beside the domain rows: the borrow checker does not cover a part of a list in a struct
// (tried).
fn cut_leaves(
    level: Level<'_>,
    rows: &mut [usize],
    start: Start,
    domains: &mut [usize],
    boxes: &mut [f64],
    room: &mut Room<'_>,
    records: &mut Records<'_>,
) -> usize
    requires dimensions_nonzero { (0 < level.points.dimensions) × (level.points.dimensions ≤ 3) × (1 ≤ level.leaf) × (1 ≤ length rows.old) × GoodRows level.points.dimensions level.points.coordinates.now rows.old }
    requires base { level.base ≡ length rows.old }
    requires rows_in_bounds { (7 * length rows.old ≤ length room.old.wholes.now) × (box_width_lem level.points.dimensions * (2 * length rows.old) ≤ length room.old.floats.now) }
    requires rows_bound { (start.from + length rows.old < 2 ^ 64) × (row_numbers * (start.first + 2 * length rows.old) ≤ length domains.old) × (box_width_lem level.points.dimensions * (start.first + 2 * length rows.old) ≤ length boxes.old) }
    requires rows_in_bounds_2 { (start.node + 4 * length rows.old ≤ length records.old.cuts.now) × (start.node + 4 * length rows.old ≤ length records.old.planes.now) }
    ensures same { SameRoom room.old room.new × SameRecords records.old records.new }
    ensures number { result ≡ length (leaves_of level.entry.points.dimensions level.entry.points.coordinates.now level.entry.leaf rows.old) }
    ensures nodes { length (record_of level.entry.points.dimensions level.entry.points.coordinates.now level.entry.leaf rows.old) + 1 ≡ 2 * result }
    ensures rows { rows.new ≡ joined (map (λ q. q.rows) (leaves_of level.entry.points.dimensions level.entry.points.coordinates.now level.entry.leaf rows.old)) }
    ensures domains { domains.new ≡ with_own start.from (map domain_own (leaves_of level.entry.points.dimensions level.entry.points.coordinates.now level.entry.leaf rows.old)) start.first domains.old }
    ensures boxes { boxes.new ≡ put boxes.old (box_width_lem level.entry.points.dimensions * start.first) (joined (map (λ q. q.box) (leaves_of level.entry.points.dimensions level.entry.points.coordinates.now level.entry.leaf rows.old))) }
    ensures cuts { records.new.cuts.now ≡ put records.old.cuts.now start.node (map whole_of (record_of level.entry.points.dimensions level.entry.points.coordinates.now level.entry.leaf rows.old)) }
    ensures planes { records.new.planes.now ≡ put records.old.planes.now start.node (map float_of (record_of level.entry.points.dimensions level.entry.points.coordinates.now level.entry.leaf rows.old)) }
{
    let whole = extents::get_pointarray_extents(level.points, rows);
    let from = Next {
        place: start.node,
        leaves: 0,
    };
    let end = split::split(level, rows, 0, whole, room, records, from);
    let floats: &mut [f64] = room.floats;
    let mut numbered = leaf_numbers::Lists {
        domains: &mut *domains,
        boxes: &mut *boxes,
        wholes: &mut *room.wholes,
    };
    leaf_numbers::number_leaves(
        level.points.dimensions,
        end.leaves,
        rows,
        floats,
        start,
        &mut numbered,
        records.cuts,
    );
    end.leaves
}

// The leaves of the active rows, as `leaves::leaves` has them: their rows go to the internals from `start.from` on, packed; start, count and
// depth of each to the domain rows from the first on, and their boxes to `boxes`, behind `start.skip` floats, from the first on. The record of
// the cuts goes to both its lists from `start.node` on. The answer is the number of leaves. The lines that take the rows to their place stand in
// both: taken to `cut_level`, which calls both, they would stand once, and both would promise of parts of the lists what each says here of the
// whole ones.
pub fn leaves(
    points: Points<'_>,
    leaf: usize,
    active: &[usize],
    start: Start,
    lists: &mut LeafLists<'_>,
    room: &mut Room<'_>,
    records: &mut Records<'_>,
) -> usize
    requires dimensions_nonzero { (0 < points.dimensions) × (points.dimensions ≤ 3) × (1 ≤ leaf) × (1 ≤ length active.now) × GoodRows points.dimensions points.coordinates.now active.now }
    requires active_in_bounds { (7 * length active.now ≤ length room.old.wholes.now) × (box_width_lem points.dimensions * (2 * length active.now) ≤ length room.old.floats.now) }
    requires active_in_bounds_2 { (start.from + length active.now ≤ length lists.old.internals.now) × (row_numbers * (start.first + 2 * length active.now) ≤ length lists.old.domains.now) × (start.skip + box_width_lem points.dimensions * (start.first + 2 * length active.now) ≤ length lists.old.boxes.now) }
    requires active_in_bounds_3 { (start.node + 4 * length active.now ≤ length records.old.cuts.now) × (start.node + 4 * length active.now ≤ length records.old.planes.now) }
    ensures same { SameLeafLists lists.old lists.new × SameRoom room.old room.new × SameRecords records.old records.new }
    ensures number { result ≡ length (leaves_of points.entry.dimensions points.entry.coordinates.now leaf active.now) }
    ensures nodes { length (record_of points.entry.dimensions points.entry.coordinates.now leaf active.now) + 1 ≡ 2 * result }
    ensures internals { lists.new.internals.now ≡ put lists.old.internals.now start.from (joined (map (λ q. q.rows) (leaves_of points.entry.dimensions points.entry.coordinates.now leaf active.now))) }
    ensures domains { lists.new.domains.now ≡ with_own start.from (map domain_own (leaves_of points.entry.dimensions points.entry.coordinates.now leaf active.now)) start.first lists.old.domains.now }
    ensures boxes { lists.new.boxes.now ≡ put lists.old.boxes.now (start.skip + box_width_lem points.entry.dimensions * start.first) (joined (map (λ q. q.box) (leaves_of points.entry.dimensions points.entry.coordinates.now leaf active.now))) }
    ensures cuts { records.new.cuts.now ≡ put records.old.cuts.now start.node (map whole_of (record_of points.entry.dimensions points.entry.coordinates.now leaf active.now)) }
    ensures planes { records.new.planes.now ≡ put records.old.planes.now start.node (map float_of (record_of points.entry.dimensions points.entry.coordinates.now leaf active.now)) }
{
    let end = start.from + active.len();
    let internals: &mut [usize] = lists.internals;
    let domains: &mut [usize] = lists.domains;
    let boxes: &mut [f64] = lists.boxes;
    let rows: &mut [usize] = &mut internals[start.from..end];
    stretches::copy_values(rows, active);
    let level = Level {
        points,
        leaf,
        base: active.len(),
    };
    cut_leaves(
        level,
        rows,
        start,
        domains,
        &mut boxes[start.skip..],
        room,
        records,
    )
}
