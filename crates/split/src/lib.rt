// The depth-first cut of a domain: its halves are cut by the function itself, the left one completely before the right one. The nodes of
// the record are written in that order, and the leaves, from left to right, to a table and a list of boxes.
#![tactic(auto)]

ghost use Rattle.std.specs.Prelude.{◌≡◌, ◌+◌, ◌^◌, ◌≤◌, ◌<◌, length};
ghost use Rattle.definition.specs.Points.{box_width_lem};
ghost use Rattle.rows.specs.Rows.{GoodRows};
ghost use Rattle.boxes.specs.Boxes.{floats_of};
ghost use Rattle.record_laws.specs.Table.{cuts_at, rows_under};
ghost use Rattle.tree_lists.specs.Lent.{SameRoom, SameRecords};
ghost use Rattle.cut_nodes.specs.Written.{domain_of, Written, Space};

use boxes::Extents;
use cut_nodes::Next;
use points::Points;
use tree_lists::{Records, Room};

// What a cut reads: the points, the leaf threshold, and how many whole numbers stand before the table of the leaves. The table stands behind
// the ordering's room in one list, since the contracts say of the whole room what is left as found.
#[derive(Clone, Copy)]
pub struct Level<'a> {
    pub points: Points<'a>,
    pub leaf: usize,
    pub base: usize,
}

// Cuts a domain and then, where its halves are large, each of them, the left one completely before the right one; otherwise its halves are
// leaves. The rows end as those of the leaves from left to right. What falls from call to call is their number. Depth and box come beside the
// rows, and are no value with their count: the rows are cut as a slice, whose length it is.
pub fn split(
    level: Level<'_>,
    rows: &mut [usize],
    depth: usize,
    whole: Extents,
    room: &mut Room<'_>,
    records: &mut Records<'_>,
    from: Next,
) -> Next
    requires dimensions_nonzero { (0 < level.points.dimensions) × (level.points.dimensions ≤ 3) × (1 ≤ level.leaf) × (1 ≤ length rows.old) × GoodRows level.points.dimensions level.points.coordinates.now rows.old }
    requires dimensions_value { (whole.dimensions ≡ level.points.dimensions) × (length (floats_of whole) ≡ box_width_lem level.points.dimensions) × (depth + length rows.old < 2 ^ 64) × Space level.points.dimensions level.base (length rows.old) from.place from.leaves room.old.wholes.now room.old.floats.now records.old.cuts.now records.old.planes.now }
    ensures same { SameRoom room.old room.new × SameRecords records.old records.new }
    ensures rows { rows.new ≡ rows_under (cuts_at level.entry.points.dimensions level.entry.points.coordinates.now level.entry.leaf (domain_of rows.old whole depth)) }
    ensures written { Written level.entry.points.dimensions level.entry.base (cuts_at level.entry.points.dimensions level.entry.points.coordinates.now level.entry.leaf (domain_of rows.old whole depth)) from.place from.leaves result.place result.leaves
        room.old.wholes.now room.new.wholes.now room.old.floats.now room.new.floats.now records.old.cuts.now records.new.cuts.now records.old.planes.now records.new.planes.now }
{
    let Level { points, leaf, base } = level;
    let count = rows.len();
    let half = count / 2;
    let Next { place, leaves } = from;
    let at = cut_nodes::cut_node(points, rows, room.wholes, records, place);
    let (left, right) = whole.halves(at.axis, at.value);
    let below = depth + 1;
    let next = Next {
        place: place + 1,
        leaves,
    };
    if half < leaf {
        return cut_nodes::put_leaves(count, below, left, right, base, room, records, next);
    }
    let middle = split(level, &mut rows[..half], below, left, room, records, next);
    split(
        level,
        &mut rows[half..],
        below,
        right,
        room,
        records,
        middle,
    )
}
