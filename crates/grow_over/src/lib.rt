// The tree over given rows: the coarse threshold, the number of reductions, and all levels, for every build.
#![tactic(auto)]

ghost use Rattle.std.specs.Prelude.{◌≡◌, map, ◌*◌, ◌^◌, ◌≤◌};
ghost use Rattle.lists.specs.Lists.{put, part};
ghost use Rattle.definition.specs.Levels.{threshold};
ghost use Rattle.definition.specs.Tree.{most_fine, levels_over};
ghost use Rattle.definition.specs.Packed.{counts_of, packed_level_points, packed_internals, packed_domains, packed_boxes, packed_borrowed};
ghost use Rattle.definition.specs.Record.{whole_of, float_of, nodes_in};
ghost use Rattle.config.specs.Params.{settings_of_lem};
ghost use Rattle.fine_level.specs.Fine.{Given};
ghost use Rattle.levels_loop.specs.After.{Space};
ghost use Rattle.levels_loop.specs.Records.{RecordRoom};
ghost use Rattle.tree_answer.specs.Answers.{counts_given};
ghost use Rattle.tree_lists.specs.Lent.{SameLists, SameRoom, SameRecords};

use config::DDMParams;
use cut_engine::Engine;
use fine_level::Plan;
use points::Points;
use tree_answer::DDMTree;
use tree_lists::{Records, Room, TreeLists};

// The tree over the n rows that stand at the front of the level points, by this engine, written to the fronts of the five lists; its
// records go to the fronts of `cuts` and `planes`.
pub fn grow_over(
    engine: Engine,
    points: Points<'_>,
    params: DDMParams,
    n: usize,
    lists: &mut TreeLists<'_>,
    room: &mut Room<'_>,
    records: &mut Records<'_>,
) -> DDMTree
    requires bound { (1 ≤ threshold (settings_of_lem points.dimensions params).policy n)
        × (n ≤ threshold (settings_of_lem points.dimensions params).policy n * params.coarse_reduction_factor ^ most_fine)
        × Given points.dimensions points.coordinates.now params.leaf_threshold params.overlap_knn (part lists.old.level_points.now 0 n) }
    requires space { Space points.dimensions params.overlap_knn n most_fine lists.old.level_points.now lists.old.internals.now lists.old.domains.now lists.old.boxes.now lists.old.borrowed.now room.old.floats.now room.old.wholes.now 0 0 0 }
    requires record_room { RecordRoom n records.old.cuts.now records.old.planes.now }
    ensures same { SameLists lists.old lists.new × SameRoom room.old room.new × SameRecords records.old records.new }
    ensures counts { counts_given result ≡ counts_of (levels_over (settings_of_lem points.entry.dimensions params) points.entry.coordinates.now (part lists.old.level_points.now 0 n)) }
    ensures level_points { lists.new.level_points.now ≡ put lists.old.level_points.now 0 (packed_level_points (levels_over (settings_of_lem points.entry.dimensions params) points.entry.coordinates.now (part lists.old.level_points.now 0 n))) }
    ensures internals { lists.new.internals.now ≡ put lists.old.internals.now 0 (packed_internals (levels_over (settings_of_lem points.entry.dimensions params) points.entry.coordinates.now (part lists.old.level_points.now 0 n))) }
    ensures domains { lists.new.domains.now ≡ put lists.old.domains.now 0 (packed_domains (levels_over (settings_of_lem points.entry.dimensions params) points.entry.coordinates.now (part lists.old.level_points.now 0 n))) }
    ensures boxes { lists.new.boxes.now ≡ put lists.old.boxes.now 0 (packed_boxes (levels_over (settings_of_lem points.entry.dimensions params) points.entry.coordinates.now (part lists.old.level_points.now 0 n))) }
    ensures borrowed { lists.new.borrowed.now ≡ put lists.old.borrowed.now 0 (packed_borrowed (levels_over (settings_of_lem points.entry.dimensions params) points.entry.coordinates.now (part lists.old.level_points.now 0 n))) }
    ensures cuts { records.new.cuts.now ≡ put records.old.cuts.now 0 (map whole_of (nodes_in (settings_of_lem points.entry.dimensions params) points.entry.coordinates.now (levels_over (settings_of_lem points.entry.dimensions params) points.entry.coordinates.now (part lists.old.level_points.now 0 n)))) }
    ensures planes { records.new.planes.now ≡ put records.old.planes.now 0 (map float_of (nodes_in (settings_of_lem points.entry.dimensions params) points.entry.coordinates.now (levels_over (settings_of_lem points.entry.dimensions params) points.entry.coordinates.now (part lists.old.level_points.now 0 n)))) }
{
    let c = level_sizes::resolved_coarse_threshold(params.coarse_threshold, n);
    let k = level_sizes::get_num_level_reductions(n, c, params.coarse_reduction_factor);
    let plan = Plan {
        points,
        engine,
        leaf: params.leaf_threshold as usize,
        neighbours: params.overlap_knn as usize,
    };
    levels_loop::all_levels(plan, c as usize, k, n, lists, room, records)
}
