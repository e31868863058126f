// The leaves of a level, and the record of its cuts: the rows are cut in place where they are to stand, domains wait in a queue in the working
// room, and leaves are packed there.
#![tactic(auto)]

ghost use Rattle.std.specs.Prelude.{◌≡◌, [], ◌∷◌, ◌++◌, map, ◌+◌, ◌*◌, ◌^◌, ◌≤◌, ◌<◌, length, set};
ghost use Rattle.lists.specs.Lists.{put, part, joined};
ghost use Rattle.lists.specs.Ascends.{All};
ghost use Rattle.lists.specs.Found.{AsFoundFrom};
ghost use Rattle.definition.specs.Packed.{row_numbers};
ghost use Rattle.definition.specs.Points.{box_width_lem, extents};
ghost use Rattle.definition.specs.Cut.{leaves_of};
ghost use Rattle.definition.specs.Record.{leaf_node, record_of, whole_of, float_of};
ghost use Rattle.queue.specs.Rows.{waiting_width, domain_own, with_own};
ghost use Rattle.rows.specs.Rows.{Inside, GoodRows};
ghost use Rattle.leaves.specs.Room.{touched_wholes, touched_floats};
ghost use Rattle.boxes.specs.Boxes.{floats_of};
ghost use Rattle.tree_lists.specs.Lent.{SameLeafLists, SameRoom, SameRecords};

use boxes::Extents;
use cut::Plane;
use node::Node;
use points::Points;
use queue::Stretch;
use tree_lists::{LeafLists, Records, Room, Start};

// Puts the root domain into the queue: all rows as its first stretch, at depth 0, with its node at this place, and its box.
fn put_root(points: Points<'_>, rows: &[usize], place: usize, room: &mut Room<'_>)
    requires dimensions_bound { (points.dimensions ≤ 3) × (0 < length rows.now) × All (Inside points.dimensions points.coordinates.now) rows.now }
    requires waiting_width_in_bounds { (2 * length rows.now + waiting_width ≤ length room.old.wholes.now) × (box_width_lem points.dimensions ≤ length room.old.floats.now) }
    ensures same { SameRoom room.old room.new }
    ensures floats { room.new.floats.now ≡ put room.old.floats.now 0 (extents points.entry.dimensions points.entry.coordinates.now rows.now) }
    ensures wholes { room.new.wholes.now ≡ put room.old.wholes.now (2 * length rows.now) (0 ∷ length rows.now ∷ 0 ∷ place ∷ []) }
{
    let n = rows.len();
    let whole = Stretch {
        start: 0,
        count: n,
        depth: 0,
        place,
    };
    let wholes: &mut [usize] = room.wholes;
    let floats: &mut [f64] = room.floats;
    queue::put_waiting(wholes, 2 * n, whole);
    let extents = extents::get_pointarray_extents(points, rows);
    let width = boxes::box_width(points.dimensions);
    boxes::write_box(extents, &mut floats[..width]);
}

// Writes the packed leaves, one number a row behind the ordering's, to the place of the rows.
fn take_packed(rows: &mut [usize], wholes: &[usize])
    requires { 2 * length rows.old ≤ length wholes.now }
    ensures { rows.new ≡ part wholes.now (length rows.old) (length rows.old) }
{
    let n = rows.len();
    stretches::copy_values(rows, &wholes[n..2 * n]);
}

// The box that stands as the k-th in a list of boxes.
fn box_at(boxes: &[f64], dimensions: usize, k: usize) -> Extents
    requires { (dimensions ≤ 3) × (box_width_lem dimensions * (k + 1) ≤ length boxes.now) }
    ensures { (result.dimensions ≡ dimensions) × (floats_of result ≡ part boxes.now (box_width_lem dimensions * k) (box_width_lem dimensions)) }
{
    let at = boxes::bounds_before(dimensions, k);
    let width = boxes::box_width(dimensions);
    boxes::read_box(&boxes[at..at + width], dimensions)
}

// Writes the boxes of the two halves of a domain to a list of boxes, from the k-th on: left before right.
fn put_boxes(whole: Extents, plane: Plane, boxes: &mut [f64], k: usize)
    requires { (plane.axis < whole.dimensions) × (whole.dimensions ≤ 3) × (box_width_lem whole.dimensions * (k + 2) ≤ length boxes.old) }
    ensures { boxes.new ≡ put boxes.old (box_width_lem whole.dimensions * k) (set (floats_of whole) (whole.dimensions + plane.axis) plane.value ++ set (floats_of whole) plane.axis plane.value) }
{
    let at = boxes::bounds_before(whole.dimensions, k);
    let width = 2 * boxes::box_width(whole.dimensions);
    boxes::write_halves(whole, plane.axis, plane.value, &mut boxes[at..at + width]);
}

// Writes the nodes of two leaves to the record, from this place on: the first has this number, and the second the next.
fn write_leaves(records: &mut Records<'_>, place: usize, number: usize)
    requires { (place + 2 ≤ length records.old.cuts.now) × (place + 2 ≤ length records.old.planes.now) × (number + 4 < 2 ^ 64) }
    ensures same { SameRecords records.old records.new }
    ensures cuts { records.new.cuts.now ≡ set (set records.old.cuts.now place (whole_of (leaf_node number))) (place + 1) (whole_of (leaf_node (number + 1))) }
    ensures planes { records.new.planes.now ≡ set (set records.old.planes.now place (float_of (leaf_node number))) (place + 1) (float_of (leaf_node (number + 1))) }
{
    node::write_node(records, place, Node::Leaf(number));
    node::write_node(records, place + 1, Node::Leaf(number + 1));
}

// Cuts the rows into the leaves of a level, which stand in their place in the end, packed. The domain rows from the first on get start
// and count of each, where the rows stand from `start.from` on in their list, and its depth; `boxes` gets their boxes from the first on, and
// both lists of the record its nodes from `start.node` on. The answer is the number of leaves. Of the room: `wholes` holds one number a row
// for the ordering, one a row for the packed leaves, and the queue, four for each cut; `floats` the boxes of the queue. All past these is as
// found. The whole numbers stay one list: the contracts say of the whole room what is left as found, and its parts move with the number of
// rows. The lists come one by one: two of them are parts of the caller's, and the borrow checker does not cover a part of a list in a struct
// (tried).
fn cut_leaves(
    points: Points<'_>,
    leaf: usize,
    rows: &mut [usize],
    start: Start,
    domains: &mut [usize],
    boxes: &mut [f64],
    room: &mut Room<'_>,
    records: &mut Records<'_>,
) -> usize
    requires dimensions_nonzero { (0 < points.dimensions) × (points.dimensions ≤ 3) × (1 ≤ leaf) × (1 ≤ length rows.old) × GoodRows points.dimensions points.coordinates.now rows.old }
    requires rows_in_bounds { (10 * length rows.old ≤ length room.old.wholes.now) × (box_width_lem points.dimensions * (2 * length rows.old) ≤ length room.old.floats.now) }
    requires rows_bound { (start.from + length rows.old < 2 ^ 64) × (row_numbers * (start.first + 2 * length rows.old) ≤ length domains.old) × (box_width_lem points.dimensions * (start.first + 2 * length rows.old) ≤ length boxes.old) }
    requires rows_in_bounds_2 { (start.node + 4 * length rows.old ≤ length records.old.cuts.now) × (start.node + 4 * length rows.old ≤ length records.old.planes.now) }
    ensures same { SameRoom room.old room.new × SameRecords records.old records.new }
    ensures number { result ≡ length (leaves_of points.entry.dimensions points.entry.coordinates.now leaf rows.old) }
    ensures rows { rows.new ≡ joined (map (λ q. q.rows) (leaves_of points.entry.dimensions points.entry.coordinates.now leaf rows.old)) }
    ensures domains { domains.new ≡ with_own start.from (map domain_own (leaves_of points.entry.dimensions points.entry.coordinates.now leaf rows.old)) start.first domains.old }
    ensures boxes { boxes.new ≡ put boxes.old (box_width_lem points.entry.dimensions * start.first) (joined (map (λ q. q.box) (leaves_of points.entry.dimensions points.entry.coordinates.now leaf rows.old))) }
    ensures cuts { records.new.cuts.now ≡ put records.old.cuts.now start.node (map whole_of (record_of points.entry.dimensions points.entry.coordinates.now leaf rows.old)) }
    ensures planes { records.new.planes.now ≡ put records.old.planes.now start.node (map float_of (record_of points.entry.dimensions points.entry.coordinates.now leaf rows.old)) }
    ensures floats { AsFoundFrom (touched_floats points.entry.dimensions result) room.old.floats.now room.new.floats.now }
    ensures wholes { AsFoundFrom (touched_wholes (length rows.old) result) room.old.wholes.now room.new.wholes.now }
{
    put_root(points, rows, start.node, room);
    let floats: &mut [f64] = room.floats;
    let wholes: &mut [usize] = room.wholes;
    let Start { from, first, .. } = start;
    let n = rows.len();
    let base = 2 * n;
    let mut head = 0;
    let mut tail = 1;
    let mut done = 0;
    let mut k = first;
    // a queue that grows: no counted loop
    while head < tail {
        let stretch = queue::waiting_at(wholes, base + queue::WAITING * head);
        let Stretch {
            start,
            count,
            place,
            ..
        } = stretch;
        let end = start + count;
        let whole = box_at(floats, points.dimensions, head);
        let plane = cut_nodes::cut_node(
            points,
            &mut rows[start..end],
            &mut wholes[..count],
            records,
            place,
        );
        head += 1;
        if leaf <= count / 2 {
            let below = queue::nodes_under(count / 2, leaf);
            queue::put_halves(wholes, base + queue::WAITING * tail, stretch, below);
            put_boxes(whole, plane, floats, tail);
            tail += 2;
        } else {
            stretches::put_values(wholes, n + done, &rows[start..end]);
            let start = from + done;
            queue::put_leaves(domains, k, Stretch { start, ..stretch });
            write_leaves(records, place + 1, k - first);
            put_boxes(whole, plane, boxes, k);
            done += count;
            k += 2;
        }
    }
    take_packed(rows, wholes);
    k - first
}

// The leaves of the active rows. Their rows go to the internals from `start.from` on, packed; start, count and depth of each to the domain
// rows from the first on, and their boxes to `boxes`, behind `start.skip` floats, from the first on. The record of the cuts goes to both its
// lists from `start.node` on. The answer is the number of leaves. Of the working room it touches the stated fronts and nothing more.
pub fn leaves(
    points: Points<'_>,
    leaf: usize,
    active: &[usize],
    start: Start,
    lists: &mut LeafLists<'_>,
    room: &mut Room<'_>,
    records: &mut Records<'_>,
) -> usize
    requires dimensions_nonzero { (0 < points.dimensions) × (points.dimensions ≤ 3) × (1 ≤ leaf) × (1 ≤ length active.now) × GoodRows points.dimensions points.coordinates.now active.now }
    requires active_in_bounds { (10 * length active.now ≤ length room.old.wholes.now) × (box_width_lem points.dimensions * (2 * length active.now) ≤ length room.old.floats.now) }
    requires active_in_bounds_2 { (start.from + length active.now ≤ length lists.old.internals.now) × (row_numbers * (start.first + 2 * length active.now) ≤ length lists.old.domains.now) × (start.skip + box_width_lem points.dimensions * (start.first + 2 * length active.now) ≤ length lists.old.boxes.now) }
    requires active_in_bounds_3 { (start.node + 4 * length active.now ≤ length records.old.cuts.now) × (start.node + 4 * length active.now ≤ length records.old.planes.now) }
    ensures same { SameLeafLists lists.old lists.new × SameRoom room.old room.new × SameRecords records.old records.new }
    ensures number { result ≡ length (leaves_of points.entry.dimensions points.entry.coordinates.now leaf active.now) }
    ensures nodes { length (record_of points.entry.dimensions points.entry.coordinates.now leaf active.now) + 1 ≡ 2 * result }
    ensures internals { lists.new.internals.now ≡ put lists.old.internals.now start.from (joined (map (λ q. q.rows) (leaves_of points.entry.dimensions points.entry.coordinates.now leaf active.now))) }
    ensures domains { lists.new.domains.now ≡ with_own start.from (map domain_own (leaves_of points.entry.dimensions points.entry.coordinates.now leaf active.now)) start.first lists.old.domains.now }
    ensures boxes { lists.new.boxes.now ≡ put lists.old.boxes.now (start.skip + box_width_lem points.entry.dimensions * start.first) (joined (map (λ q. q.box) (leaves_of points.entry.dimensions points.entry.coordinates.now leaf active.now))) }
    ensures cuts { records.new.cuts.now ≡ put records.old.cuts.now start.node (map whole_of (record_of points.entry.dimensions points.entry.coordinates.now leaf active.now)) }
    ensures planes { records.new.planes.now ≡ put records.old.planes.now start.node (map float_of (record_of points.entry.dimensions points.entry.coordinates.now leaf active.now)) }
    ensures floats { AsFoundFrom (touched_floats points.entry.dimensions result) room.old.floats.now room.new.floats.now }
    ensures wholes { AsFoundFrom (touched_wholes (length active.now) result) room.old.wholes.now room.new.wholes.now }
{
    let end = start.from + active.len();
    let internals: &mut [usize] = lists.internals;
    let domains: &mut [usize] = lists.domains;
    let boxes: &mut [f64] = lists.boxes;
    let rows: &mut [usize] = &mut internals[start.from..end];
    stretches::copy_values(rows, active);
    cut_leaves(
        points,
        leaf,
        rows,
        start,
        domains,
        &mut boxes[start.skip..],
        room,
        records,
    )
}
