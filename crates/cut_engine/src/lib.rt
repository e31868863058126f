// The two engines that cut a level: its leaves and the record of its cuts are the same.
#![tactic(auto)]

ghost use Rattle.std.specs.Prelude.{◌≡◌, map, ◌+◌, ◌*◌, ◌≤◌, ◌<◌, length};
ghost use Rattle.lists.specs.Lists.{put, joined};
ghost use Rattle.definition.specs.Points.{box_width_lem};
ghost use Rattle.definition.specs.Packed.{row_numbers};
ghost use Rattle.definition.specs.Cut.{leaves_of};
ghost use Rattle.definition.specs.Record.{record_of, whole_of, float_of};
ghost use Rattle.queue.specs.Rows.{domain_own, with_own};
ghost use Rattle.rows.specs.Rows.{GoodRows};
ghost use Rattle.tree_lists.specs.Lent.{SameLeafLists, SameRoom, SameRecords};

use points::Points;
use tree_lists::{LeafLists, Records, Room, Start};

// How a level is cut: domains wait in a queue, or the left half is cut completely before the right. An enum, as document 02 names it for
// this place, and matched in one function only. The records stand beside it and not in it: an engine is a setting of a plan and is copied, and
// records are lent on by `&mut`.
#[derive(Clone, Copy)]
pub enum Engine {
    Queue,
    DepthFirst,
}

// How many leaves a level has, and how many nodes its record.
#[derive(Clone, Copy)]
pub struct Cut {
    pub leaves: usize,
    pub nodes: usize,
}

// The leaves of the active rows, by this engine. Their rows go to the internals from `start.from` on, packed; start, count and depth of each
// to the domain rows from the first on, and their boxes to `boxes`, behind `start.skip` floats, from the first on. The record goes to `cuts`
// and `planes` from `start.node` on: one node less than 2 times the leaves. Both engines are lent the same values one by one: one struct
// of them would be taken apart again in each engine, since two of its lists are lent as parts. The leaf threshold is a plain number that is not 0,
// here and in both: of a `NonZero` each contract and each comparison would take the number out again.
pub fn cut_level(
    engine: Engine,
    points: Points<'_>,
    leaf: usize,
    active: &[usize],
    start: Start,
    lists: &mut LeafLists<'_>,
    room: &mut Room<'_>,
    records: &mut Records<'_>,
) -> Cut
    requires dimensions_nonzero { (0 < points.dimensions) × (points.dimensions ≤ 3) × (1 ≤ leaf) × (1 ≤ length active.now) × GoodRows points.dimensions points.coordinates.now active.now }
    requires active_in_bounds { (10 * length active.now ≤ length room.old.wholes.now) × (box_width_lem points.dimensions * (2 * length active.now) ≤ length room.old.floats.now) }
    requires active_in_bounds_2 { (start.from + length active.now ≤ length lists.old.internals.now) × (row_numbers * (start.first + 2 * length active.now) ≤ length lists.old.domains.now) × (start.skip + box_width_lem points.dimensions * (start.first + 2 * length active.now) ≤ length lists.old.boxes.now) }
    requires active_in_bounds_3 { (start.node + 4 * length active.now ≤ length records.old.cuts.now) × (start.node + 4 * length active.now ≤ length records.old.planes.now) }
    ensures same { SameLeafLists lists.old lists.new × SameRoom room.old room.new × SameRecords records.old records.new }
    ensures counts { (result.leaves ≡ length (leaves_of points.entry.dimensions points.entry.coordinates.now leaf active.now))
        × (result.nodes ≡ length (record_of points.entry.dimensions points.entry.coordinates.now leaf active.now))
        × (result.nodes ≤ 4 * length active.now) }
    ensures internals { lists.new.internals.now ≡ put lists.old.internals.now start.from (joined (map (λ q. q.rows) (leaves_of points.entry.dimensions points.entry.coordinates.now leaf active.now))) }
    ensures domains { lists.new.domains.now ≡ with_own start.from (map domain_own (leaves_of points.entry.dimensions points.entry.coordinates.now leaf active.now)) start.first lists.old.domains.now }
    ensures boxes { lists.new.boxes.now ≡ put lists.old.boxes.now (start.skip + box_width_lem points.entry.dimensions * start.first) (joined (map (λ q. q.box) (leaves_of points.entry.dimensions points.entry.coordinates.now leaf active.now))) }
    ensures cuts { records.new.cuts.now ≡ put records.old.cuts.now start.node (map whole_of (record_of points.entry.dimensions points.entry.coordinates.now leaf active.now)) }
    ensures planes { records.new.planes.now ≡ put records.old.planes.now start.node (map float_of (record_of points.entry.dimensions points.entry.coordinates.now leaf active.now)) }
{
    let leaves = match engine {
        Engine::Queue => leaves::leaves(points, leaf, active, start, lists, room, records),
        Engine::DepthFirst => depth_first::leaves(
            points, leaf, active, start, lists, room, records,
        ),
    };
    Cut {
        leaves,
        nodes: 2 * leaves - 1,
    }
}
