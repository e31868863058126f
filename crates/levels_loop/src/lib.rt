// The levels of a tree: a fine level while the active rows outnumber the coarse threshold, and then the coarse level.
#![tactic(auto)]

ghost use Rattle.std.specs.Prelude.{◌≡◌, ◌&&◌, [], ◌∷◌, map, ◌+◌, ◌*◌, ◌^◌, ◌≤◌, ◌<◌, ltb, length, replicate};
ghost use Rattle.lists.specs.Lists.{put, part};
ghost use Rattle.definition.specs.Levels.{level_size_lem};
ghost use Rattle.definition.specs.Tree.{reductions_left, most_fine};
ghost use Rattle.definition.specs.Refusals.{most_points};
ghost use Rattle.definition.specs.Packed.{row_numbers, row_floats_lem, packed_level_points, packed_internals, packed_domains, packed_boxes, packed_borrowed};
ghost use Rattle.definition.specs.Record.{whole_of, float_of, nodes_in};
ghost use Rattle.fine_level.specs.Fine.{Given};
ghost use Rattle.levels_loop.specs.After.{Space};
ghost use Rattle.levels_loop.specs.Planned.{settings_by, levels_by};
ghost use Rattle.levels_loop.specs.Records.{RecordRoom};
ghost use Rattle.tree_lists.specs.Lent.{SameLists, SameRoom, SameRecords};

use fine_level::{Parts, Place, Plan};
use tree_answer::{DDMTree, MOST_LEVELS};
use tree_lists::{LeafLists, Records, Room, TreeLists};

// The most fine levels.
const MOST_FINE: usize = MOST_LEVELS - 1;

// Whether a fine level is next: one more is allowed, and the active rows outnumber the coarse threshold.
fn is_fine(built: usize, a: usize, c: usize) -> bool
    ensures { result ≡ (ltb built most_fine && ltb c a) }
{
    built < MOST_FINE && c < a
}

// The size of the level after the next, of k reductions in all.
fn next_size(a: usize, c: usize, k: u32, built: usize) -> usize
    requires { (a ≤ most_points) × (1 ≤ c) × (c < a) × (k ≤ 3) }
    ensures { result ≡ level_size_lem a c (reductions_left k built) }
{
    let left = (k as usize).saturating_sub(built).max(1) as u32;
    level_sizes::level_size(a, c, left)
}

// Where the level after one stands, which has `size` active rows: behind all that this one has written.
fn place_after(place: Place, size: usize, level: Parts) -> Place
    requires { (place.from + place.a < 2 ^ 64) × (place.first + level.leaves < 2 ^ 64) × (place.bat + level.borrowed < 2 ^ 64) × (place.node + level.nodes < 2 ^ 64) }
    ensures rows { (result.from ≡ place.from + place.a) × (result.a ≡ size) }
    ensures parts { (result.first ≡ place.first + level.leaves) × (result.bat ≡ place.bat + level.borrowed) × (result.node ≡ place.node + level.nodes) }
{
    Place {
        from: place.from + place.a,
        a: size,
        first: place.first + level.leaves,
        bat: place.bat + level.borrowed,
        node: place.node + level.nodes,
    }
}

// All levels over the n rows at the front of the level points. Each level is written behind the last: its active rows, its leaves'
// rows, its domain rows, their boxes, the borrowed rows, and the nodes of its record. The threshold c and the number k of
// reductions come beside the plan: a fine level is handed its size, and needs neither.
pub fn all_levels(
    plan: Plan<'_>,
    c: usize,
    k: u32,
    n: usize,
    lists: &mut TreeLists<'_>,
    room: &mut Room<'_>,
    records: &mut Records<'_>,
) -> DDMTree
    requires le_c { (1 ≤ c) × (k ≤ 3) × Given plan.points.dimensions plan.points.coordinates.now plan.leaf plan.neighbours (part lists.old.level_points.now 0 n) }
    requires space { Space plan.points.dimensions plan.neighbours n most_fine lists.old.level_points.now lists.old.internals.now lists.old.domains.now lists.old.boxes.now lists.old.borrowed.now room.old.floats.now room.old.wholes.now 0 0 0 }
    requires record_room { RecordRoom n records.old.cuts.now records.old.planes.now }
    ensures same { SameLists lists.old lists.new × SameRoom room.old room.new × SameRecords records.old records.new }
    ensures counts { (result.levels ≡ length (levels_by plan.entry c k (part lists.old.level_points.now 0 n)))
        × (result.rows ≡ put (replicate 4 0) 0 (map (λ l. length l.points) (levels_by plan.entry c k (part lists.old.level_points.now 0 n))))
        × (result.domains ≡ put (replicate 4 0) 0 (map (λ l. length l.leaves) (levels_by plan.entry c k (part lists.old.level_points.now 0 n)))) }
    ensures level_points { lists.new.level_points.now ≡ put lists.old.level_points.now 0 (packed_level_points (levels_by plan.entry c k (part lists.old.level_points.now 0 n))) }
    ensures internals { lists.new.internals.now ≡ put lists.old.internals.now 0 (packed_internals (levels_by plan.entry c k (part lists.old.level_points.now 0 n))) }
    ensures domains { lists.new.domains.now ≡ put lists.old.domains.now 0 (packed_domains (levels_by plan.entry c k (part lists.old.level_points.now 0 n))) }
    ensures boxes { lists.new.boxes.now ≡ put lists.old.boxes.now 0 (packed_boxes (levels_by plan.entry c k (part lists.old.level_points.now 0 n))) }
    ensures borrowed { lists.new.borrowed.now ≡ put lists.old.borrowed.now 0 (packed_borrowed (levels_by plan.entry c k (part lists.old.level_points.now 0 n))) }
    ensures cuts { records.new.cuts.now ≡ put records.old.cuts.now 0 (map whole_of (nodes_in (settings_by plan.entry) plan.entry.points.coordinates.now (levels_by plan.entry c k (part lists.old.level_points.now 0 n)))) }
    ensures planes { records.new.planes.now ≡ put records.old.planes.now 0 (map float_of (nodes_in (settings_by plan.entry) plan.entry.points.coordinates.now (levels_by plan.entry c k (part lists.old.level_points.now 0 n)))) }
{
    let mut place = Place {
        from: 0,
        a: n,
        first: 0,
        bat: 0,
        node: 0,
    };
    let mut rows = [0; MOST_LEVELS];
    let mut domains = [0; MOST_LEVELS];
    let mut built = 0;
    // how many fine levels there are shows only as they are built, and is asked behind the loop: a `for` would count beside `built`
    while is_fine(built, place.a, c) {
        let size = next_size(place.a, c, k, built);
        let level = fine_level::fine_level(plan, size, place, lists, room, records);
        rows[built] = place.a;
        domains[built] = level.leaves;
        place = place_after(place, size, level);
        built += 1;
    }
    // by `&mut`, though it is only read: while one of the lists is lent by `&`, the check covers no loan of another
    let active = &mut lists.level_points[place.from..place.from + place.a];
    let mut leaf_lists = LeafLists {
        internals: &mut *lists.internals,
        domains: &mut *lists.domains,
        boxes: &mut *lists.boxes,
    };
    coarse_level::coarse_level(plan.points.dimensions, place, active, &mut leaf_lists);
    rows[built] = place.a;
    domains[built] = 1;
    DDMTree {
        levels: built + 1,
        rows,
        domains,
    }
}
