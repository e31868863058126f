// The node of a cut, written with the cut, for both engines; and what the depth-first one writes of leaves, each with its entry in the table of the
// leaves, its box and its node. Its room holds the boxes of the leaves, the ordering's numbers, and behind these the table.
#![tactic(auto)]

ghost use Rattle.std.specs.Prelude.{◌≡◌, List, ℕ, ◌+◌, ◌-◌, ◌*◌, ◌/◌, ◌≤◌, ◌<◌, length, set};
ghost use Rattle.lists.specs.Found.{AsFoundFrom};
ghost use Rattle.definition.specs.Points.{box_width_lem};
ghost use Rattle.definition.specs.Cut.{longest_axis_lem, plane};
ghost use Rattle.definition.specs.Record.{uncut};
ghost use Rattle.halving.specs.Cuts.{halved};
ghost use Rattle.rows.specs.Rows.{GoodRows};
ghost use Rattle.boxes.specs.Boxes.{floats_of};
ghost use Rattle.record_laws.specs.Table.{entry_width};
ghost use Rattle.tree_lists.specs.Lent.{SameRoom, SameRecords};
ghost use Rattle.cut_nodes.specs.Written.{domain_of, Written, WrittenTwo};

use boxes::Extents;
use cut::Plane;
use node::{Entry, Node};
use points::Points;
use tree_lists::{Records, Room};

// Where the next node goes, and how many leaves there are so far.
#[derive(Clone, Copy)]
pub struct Next {
    pub place: usize,
    pub leaves: usize,
}

// Writes a leaf of `count` rows: its entry, its box, and its node, which has no number yet. Count, depth and box come one by one, here and below:
// the rows are cut as a slice, so that a domain's count is its length, and no value holds the three.
fn put_leaf(
    count: usize,
    depth: usize,
    whole: Extents,
    base: usize,
    room: &mut Room<'_>,
    records: &mut Records<'_>,
    from: Next,
) -> Next
    requires { (whole.dimensions ≤ 3) × (base + entry_width * (from.leaves + 1) ≤ length room.old.wholes.now) × (box_width_lem whole.dimensions * (from.leaves + 1) ≤ length room.old.floats.now)
        × (from.place < length records.old.cuts.now) × (from.place < length records.old.planes.now) }
    ensures same { SameRoom room.old room.new × SameRecords records.old records.new }
    ensures next { (result.place ≡ from.place + 1) × (result.leaves ≡ from.leaves + 1) }
    ensures written { (rows : List ℕ) → length rows ≡ count → Written whole.dimensions base (uncut (domain_of rows whole depth)) from.place from.leaves result.place result.leaves
        room.old.wholes.now room.new.wholes.now room.old.floats.now room.new.floats.now records.old.cuts.now records.new.cuts.now records.old.planes.now records.new.planes.now }
{
    let Next { place, leaves } = from;
    let entry = Entry {
        depth,
        count,
        place,
    };
    node::put_entry(room.wholes, base + node::ENTRY * leaves, entry);
    let at = boxes::bounds_before(whole.dimensions, leaves);
    let width = boxes::box_width(whole.dimensions);
    boxes::write_box(whole, &mut room.floats[at..at + width]);
    node::write_node(records, place, Node::Leaf(0));
    Next {
        place: place + 1,
        leaves: leaves + 1,
    }
}

// Cuts the rows in place, and writes the cut's node. The ordering's room is the front of the whole numbers, one a row.
pub fn cut_node(
    points: Points<'_>,
    rows: &mut [usize],
    wholes: &mut [usize],
    records: &mut Records<'_>,
    place: usize,
) -> Plane
    requires { (0 < points.dimensions) × (1 ≤ length rows.old) × GoodRows points.dimensions points.coordinates.now rows.old × (length rows.old ≤ length wholes.old)
        × (place < length records.old.cuts.now) × (place < length records.old.planes.now) }
    ensures same { SameRecords records.old records.new }
    ensures plane { (result.axis ≡ longest_axis_lem points.entry.dimensions points.entry.coordinates.now rows.old) × (result.value ≡ plane points.entry.dimensions points.entry.coordinates.now rows.old) }
    ensures rows { rows.new ≡ halved points.entry.dimensions points.entry.coordinates.now (longest_axis_lem points.entry.dimensions points.entry.coordinates.now rows.old) rows.old }
    ensures wholes { AsFoundFrom (length rows.old) wholes.old wholes.new }
    ensures cuts { records.new.cuts.now ≡ set records.old.cuts.now place (longest_axis_lem points.entry.dimensions points.entry.coordinates.now rows.old) }
    ensures planes { records.new.planes.now ≡ set records.old.planes.now place (plane points.entry.dimensions points.entry.coordinates.now rows.old) }
{
    let count = rows.len();
    let at = cut::cut_stretch(points, rows, &mut wholes[..count]);
    let node = Node::Cut {
        axis: at.axis,
        plane: at.value,
    };
    node::write_node(records, place, node);
    at
}

// Writes the two halves of a domain of `count` rows as leaves.
pub fn put_leaves(
    count: usize,
    depth: usize,
    left: Extents,
    right: Extents,
    base: usize,
    room: &mut Room<'_>,
    records: &mut Records<'_>,
    from: Next,
) -> Next
    requires { (left.dimensions ≤ 3) × (right.dimensions ≡ left.dimensions) × (length (floats_of left) ≡ box_width_lem left.dimensions) × (base + entry_width * (from.leaves + 2) ≤ length room.old.wholes.now) × (box_width_lem left.dimensions * (from.leaves + 2) ≤ length room.old.floats.now)
        × (from.place + 2 ≤ length records.old.cuts.now) × (from.place + 2 ≤ length records.old.planes.now) }
    ensures same { SameRoom room.old room.new × SameRecords records.old records.new }
    ensures written { (l m : List ℕ) → length l ≡ count / 2 → length m ≡ count - count / 2 → WrittenTwo left.dimensions base (uncut (domain_of l left depth)) (uncut (domain_of m right depth)) from.place from.leaves result.place result.leaves
        room.old.wholes.now room.new.wholes.now room.old.floats.now room.new.floats.now records.old.cuts.now records.new.cuts.now records.old.planes.now records.new.planes.now }
{
    let half = count / 2;
    let middle = put_leaf(half, depth, left, base, room, records, from);
    put_leaf(count - half, depth, right, base, room, records, middle)
}
