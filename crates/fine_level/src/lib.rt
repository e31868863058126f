// One fine level: the leaves of the active rows, by either engine, what they borrow, and the rows that they send up.
#![tactic(auto)]

ghost use Rattle.std.specs.Prelude.{◌≡◌, map, ◌+◌, ◌*◌, ◌≤◌, length};
ghost use Rattle.lists.specs.Lists.{put, part, joined};
ghost use Rattle.definition.specs.Packed.{stretches, row_numbers, row_floats_lem};
ghost use Rattle.definition.specs.Record.{whole_of, float_of};
ghost use Rattle.packed.specs.Reading.{own_in_lem, borrowed_in, boxes_in, read_own};
ghost use Rattle.coarse_points.specs.Sent.{sent_rows, sent_covers, SendsUp};
ghost use Rattle.covers.specs.Covered.{covered};
ghost use Rattle.tree_lists.specs.Lent.{SameLists, SameRoom, SameRecords};
ghost use Rattle.fine_level.specs.Fine.{next_at, Room as LevelRoom};
ghost use Rattle.queue.specs.Rows.{domain_own, with_own};
ghost use Rattle.fine_level.specs.Planned.{cut_by, divided_by, leaves_by, nodes_by, active_at, GivenBy, FitsAt, RecordFits};

use cut_engine::{Cut, Engine};
use overlaps::Borrowing;
use packed::LevelLeaves;
use points::Points;
use tree_lists::{LeafLists, Records, Room, Start, TreeLists};

// What every level of a build shares: the points, how they are cut, the leaf threshold and the neighbour count. What is asked of plan, place
// and lists together (`GivenBy`, `FitsAt`, ..) stands in the contract of each function below: no one value holds the three.
#[derive(Clone, Copy)]
pub struct Plan<'a> {
    pub points: Points<'a>,
    pub engine: Engine,
    pub leaf: usize,
    pub neighbours: usize,
}

// Where a level stands in the lists: its `a` active rows from `from` on, its leaves' rows likewise, its first domain row, its
// first borrowed row, and the first node of its record.
#[derive(Clone, Copy)]
pub struct Place {
    pub from: usize,
    pub a: usize,
    pub first: usize,
    pub bat: usize,
    pub node: usize,
}

// How many leaves a level has, how many rows they borrow, and how many nodes of its record are written.
#[derive(Clone, Copy)]
pub struct Parts {
    pub leaves: usize,
    pub borrowed: usize,
    pub nodes: usize,
}

// The leaves of the active rows, with the record. Their boxes are packed where the floats of the first domain row start: the engine puts
// them behind as many boxes as there are rows before, and `first` floats are passed over for the covers of those.
fn cut_rows(
    plan: Plan<'_>,
    place: Place,
    lists: &mut TreeLists<'_>,
    room: &mut Room<'_>,
    records: &mut Records<'_>,
) -> Cut
    requires given_by { (place.from + place.a ≤ length lists.old.level_points.now) × GivenBy plan (active_at place lists.old.level_points.now) }
    requires fits_at { FitsAt plan place place.a lists.old.internals.now lists.old.domains.now lists.old.boxes.now lists.old.borrowed.now }
    requires room { LevelRoom plan.neighbours place.a room.old.floats.now room.old.wholes.now }
    requires record_fits { RecordFits place place.a records.old.cuts.now records.old.planes.now }
    ensures same { SameLists lists.old lists.new × SameRoom room.old room.new × SameRecords records.old records.new }
    ensures kept { (lists.new.level_points.now ≡ lists.old.level_points.now) × (lists.new.borrowed.now ≡ lists.old.borrowed.now) }
    ensures counts { (result.leaves ≡ length (cut_by plan.entry (active_at place lists.old.level_points.now)))
        × (result.nodes ≡ length (nodes_by plan.entry (active_at place lists.old.level_points.now))) × (result.nodes ≤ 4 * place.a) }
    ensures internals { lists.new.internals.now ≡ put lists.old.internals.now place.from (joined (map (λ q. q.rows) (cut_by plan.entry (active_at place lists.old.level_points.now)))) }
    ensures domains { lists.new.domains.now ≡ with_own place.from (map domain_own (cut_by plan.entry (active_at place lists.old.level_points.now))) place.first lists.old.domains.now }
    ensures boxes { lists.new.boxes.now ≡ put lists.old.boxes.now (row_floats_lem plan.entry.points.dimensions * place.first) (joined (map (λ f. f.box) (divided_by plan.entry (active_at place lists.old.level_points.now)))) }
    ensures cuts { records.new.cuts.now ≡ put records.old.cuts.now place.node (map whole_of (nodes_by plan.entry (active_at place lists.old.level_points.now))) }
    ensures planes { records.new.planes.now ≡ put records.old.planes.now place.node (map float_of (nodes_by plan.entry (active_at place lists.old.level_points.now))) }
{
    let Place {
        from,
        first,
        node,
        ..
    } = place;
    let end = from + place.a;
    let level_points: &mut [usize] = lists.level_points;
    let active: &mut [usize] = &mut level_points[from..end];
    let start = Start {
        from,
        first,
        skip: first,
        node,
    };
    let mut leaf_lists = LeafLists {
        internals: &mut *lists.internals,
        domains: &mut *lists.domains,
        boxes: &mut *lists.boxes,
    };
    cut_engine::cut_level(
        plan.engine,
        plan.points,
        plan.leaf,
        active,
        start,
        &mut leaf_lists,
        room,
        records,
    )
}

// The leaves of the active rows, with the record, and what they borrow.
fn divide(
    plan: Plan<'_>,
    place: Place,
    lists: &mut TreeLists<'_>,
    room: &mut Room<'_>,
    records: &mut Records<'_>,
) -> Parts
    requires given_by { (place.from + place.a ≤ length lists.old.level_points.now) × GivenBy plan (active_at place lists.old.level_points.now) }
    requires fits_at { FitsAt plan place place.a lists.old.internals.now lists.old.domains.now lists.old.boxes.now lists.old.borrowed.now }
    requires room { LevelRoom plan.neighbours place.a room.old.floats.now room.old.wholes.now }
    requires record_fits { RecordFits place place.a records.old.cuts.now records.old.planes.now }
    ensures same { SameLists lists.old lists.new × SameRoom room.old room.new × SameRecords records.old records.new }
    ensures counts { (result.leaves ≡ length (divided_by plan.entry (active_at place lists.old.level_points.now))) × (result.borrowed ≡ length (borrowed_in (divided_by plan.entry (active_at place lists.old.level_points.now))))
        × (result.nodes ≡ length (nodes_by plan.entry (active_at place lists.old.level_points.now))) × (result.nodes ≤ 4 * place.a) }
    ensures level_points { lists.new.level_points.now ≡ lists.old.level_points.now }
    ensures internals { lists.new.internals.now ≡ put lists.old.internals.now place.from (own_in_lem (divided_by plan.entry (active_at place lists.old.level_points.now))) }
    ensures domains { lists.new.domains.now ≡ put lists.old.domains.now (row_numbers * place.first) (stretches place.from place.bat (divided_by plan.entry (active_at place lists.old.level_points.now))) }
    ensures boxes { lists.new.boxes.now ≡ put lists.old.boxes.now (row_floats_lem plan.entry.points.dimensions * place.first) (joined (map (λ f. f.box) (divided_by plan.entry (active_at place lists.old.level_points.now)))) }
    ensures borrowed { lists.new.borrowed.now ≡ put lists.old.borrowed.now place.bat (borrowed_in (divided_by plan.entry (active_at place lists.old.level_points.now))) }
    ensures cuts { records.new.cuts.now ≡ put records.old.cuts.now place.node (map whole_of (nodes_by plan.entry (active_at place lists.old.level_points.now))) }
    ensures planes { records.new.planes.now ≡ put records.old.planes.now place.node (map float_of (nodes_by plan.entry (active_at place lists.old.level_points.now))) }
{
    let cut = cut_rows(plan, place, lists, room, records);
    let leaves = cut.leaves;
    let Place {
        from,
        first,
        bat,
        node,
        ..
    } = place;
    let end = from + place.a;
    let stop = node + cut.nodes;
    let level_points: &mut [usize] = lists.level_points;
    let active: &mut [usize] = &mut level_points[from..end];
    // these two only read, as the active rows are: while a list of a value is lent by `&`, the check covers no loan of another
    let cuts: &mut [usize] = &mut records.cuts[node..stop];
    let planes: &mut [f64] = &mut records.planes[node..stop];
    let internals: &mut [usize] = lists.internals;
    let mut borrowing = Borrowing {
        internals,
        domains: &mut *lists.domains,
        first,
        count: leaves,
        borrowed: &mut *lists.borrowed,
        at: bat,
    };
    let borrowed = overlaps::overlaps(
        plan.points,
        plan.neighbours,
        active,
        cuts,
        planes,
        from,
        &mut borrowing,
        room.wholes,
    );
    Parts {
        leaves,
        borrowed,
        nodes: cut.nodes,
    }
}

// What the m leaves from the domain row `first` on send up, `size` rows in all, goes right behind the active rows. Each leaf's box, which
// stands packed with the others, is put to its row, with the cover of what the leaf sends behind it.
fn send_up(
    points: Points<'_>,
    size: usize,
    place: Place,
    m: usize,
    lists: &mut TreeLists<'_>,
    room: &mut Room<'_>,
)
    requires sends_up { SendsUp points.dimensions points.coordinates.now (part lists.old.level_points.now place.from place.a) lists.old.internals.now lists.old.domains.now place.first m }
    requires size_le_a { (size ≤ place.a) × (place.from + place.a + size ≤ length lists.old.level_points.now) × (m ≤ length room.old.wholes.now) × (place.a + m ≤ length room.old.floats.now) × (row_floats_lem points.dimensions * (place.first + m) ≤ length lists.old.boxes.now) }
    ensures same { SameLists lists.old lists.new × SameRoom room.old room.new }
    ensures kept { (lists.new.internals.now ≡ lists.old.internals.now) × (lists.new.domains.now ≡ lists.old.domains.now) × (lists.new.borrowed.now ≡ lists.old.borrowed.now) }
    ensures number { size ≡ length (sent_rows points.entry.dimensions points.entry.coordinates.now (part lists.old.level_points.now place.from place.a) (read_own lists.old.internals.now lists.old.domains.now place.first m) size) }
    ensures list { lists.new.level_points.now ≡ put lists.old.level_points.now (place.from + place.a) (sent_rows points.entry.dimensions points.entry.coordinates.now (part lists.old.level_points.now place.from place.a) (read_own lists.old.internals.now lists.old.domains.now place.first m) size) }
    ensures boxes { lists.new.boxes.now ≡ put lists.old.boxes.now (row_floats_lem points.entry.dimensions * place.first) (covered points.entry.dimensions lists.old.boxes.now (row_floats_lem points.entry.dimensions * place.first) (sent_covers points.entry.dimensions points.entry.coordinates.now (read_own lists.old.internals.now lists.old.domains.now place.first m) size)) }
{
    let Place { from, a, first, .. } = place;
    let internals: &mut [usize] = lists.internals;
    let domains: &mut [usize] = lists.domains;
    let leaves = LevelLeaves {
        internals,
        domains,
        first,
        count: m,
    };
    let level_points: &mut [usize] = lists.level_points;
    let (front, behind) = level_points.split_at_mut(from + a);
    coarse_points::coarse_points(points, &front[from..], leaves, &mut behind[..size], room);
    let stop = a + m;
    let floats: &mut [f64] = room.floats;
    let covers: &mut [f64] = &mut floats[a..stop];
    covers::put_covers(lists.boxes, points.dimensions, first, covers);
}

// The fine level over the active rows of its place in the level points. Its leaves' rows go to the same place in the internals, and
// the `size` rows that they send up right behind the active rows.
pub fn fine_level(
    plan: Plan<'_>,
    size: usize,
    place: Place,
    lists: &mut TreeLists<'_>,
    room: &mut Room<'_>,
    records: &mut Records<'_>,
) -> Parts
    requires a_in_bounds { (place.from + 2 * place.a ≤ length lists.old.level_points.now) × (size ≤ place.a) × GivenBy plan (active_at place lists.old.level_points.now) }
    requires fits_at { FitsAt plan place place.a lists.old.internals.now lists.old.domains.now lists.old.boxes.now lists.old.borrowed.now }
    requires room { LevelRoom plan.neighbours place.a room.old.floats.now room.old.wholes.now }
    requires record_fits { RecordFits place place.a records.old.cuts.now records.old.planes.now }
    ensures same { SameLists lists.old lists.new × SameRoom room.old room.new × SameRecords records.old records.new }
    ensures counts { (result.leaves ≡ length (leaves_by plan.entry size (active_at place lists.old.level_points.now)))
        × (result.borrowed ≡ length (borrowed_in (leaves_by plan.entry size (active_at place lists.old.level_points.now))))
        × (result.nodes ≡ length (nodes_by plan.entry (active_at place lists.old.level_points.now))) × (result.nodes ≤ 4 * place.a) }
    ensures next { size ≡ length (next_at plan.entry.points.dimensions plan.entry.points.coordinates.now plan.entry.leaf size (active_at place lists.old.level_points.now)) }
    ensures level_points { lists.new.level_points.now ≡ put lists.old.level_points.now (place.from + place.a) (next_at plan.entry.points.dimensions plan.entry.points.coordinates.now plan.entry.leaf size (active_at place lists.old.level_points.now)) }
    ensures internals { lists.new.internals.now ≡ put lists.old.internals.now place.from (own_in_lem (leaves_by plan.entry size (active_at place lists.old.level_points.now))) }
    ensures domains { lists.new.domains.now ≡ put lists.old.domains.now (row_numbers * place.first) (stretches place.from place.bat (leaves_by plan.entry size (active_at place lists.old.level_points.now))) }
    ensures boxes { lists.new.boxes.now ≡ put lists.old.boxes.now (row_floats_lem plan.entry.points.dimensions * place.first) (boxes_in (leaves_by plan.entry size (active_at place lists.old.level_points.now))) }
    ensures borrowed { lists.new.borrowed.now ≡ put lists.old.borrowed.now place.bat (borrowed_in (leaves_by plan.entry size (active_at place lists.old.level_points.now))) }
    ensures cuts { records.new.cuts.now ≡ put records.old.cuts.now place.node (map whole_of (nodes_by plan.entry (active_at place lists.old.level_points.now))) }
    ensures planes { records.new.planes.now ≡ put records.old.planes.now place.node (map float_of (nodes_by plan.entry (active_at place lists.old.level_points.now))) }
{
    let parts = divide(plan, place, lists, room, records);
    send_up(plan.points, size, place, parts.leaves, lists, room);
    parts
}
