// The tree of an accepted call over all points: the rows of the first level, and the tree over them, for both builds.
#![tactic(auto)]

ghost use Rattle.std.specs.Prelude.{◌≡◌, map};
ghost use Rattle.lists.specs.Lists.{put};
ghost use Rattle.definition.specs.Tree.{levels};
ghost use Rattle.definition.specs.Packed.{counts_of, packed_level_points, packed_internals, packed_domains, packed_boxes, packed_borrowed};
ghost use Rattle.definition.specs.Refusals.{accepted};
ghost use Rattle.definition.specs.Outcome.{build_call};
ghost use Rattle.definition.specs.Record.{whole_of, float_of, nodes_in};
ghost use Rattle.config.specs.Params.{settings_of_lem};
ghost use Rattle.tree_answer.specs.Answers.{counts_given};
ghost use Rattle.tree_lists.specs.Lent.{lists_in, records_in, SameLists, SameRoom, SameRecords};

use config::DDMParams;
use cut_engine::Engine;
use points::Points;
use tree_answer::DDMTree;
use tree_lists::{Records, Room, TreeLists};

// The tree of an accepted call, by this engine, written to the fronts of the five lists; its records go to the fronts of `cuts` and
// `planes`.
pub fn grow(
    engine: Engine,
    points: Points<'_>,
    params: DDMParams,
    lists: &mut TreeLists<'_>,
    room: &mut Room<'_>,
    records: &mut Records<'_>,
) -> DDMTree
    requires { build_call (settings_of_lem points.dimensions params) points.coordinates.now (lists_in lists.old) room.old.floats.now room.old.wholes.now (records_in records.old) ≡ accepted }
    ensures same { SameLists lists.old lists.new × SameRoom room.old room.new × SameRecords records.old records.new }
    ensures counts { counts_given result ≡ counts_of (levels (settings_of_lem points.entry.dimensions params) points.entry.coordinates.now) }
    ensures level_points { lists.new.level_points.now ≡ put lists.old.level_points.now 0 (packed_level_points (levels (settings_of_lem points.entry.dimensions params) points.entry.coordinates.now)) }
    ensures internals { lists.new.internals.now ≡ put lists.old.internals.now 0 (packed_internals (levels (settings_of_lem points.entry.dimensions params) points.entry.coordinates.now)) }
    ensures domains { lists.new.domains.now ≡ put lists.old.domains.now 0 (packed_domains (levels (settings_of_lem points.entry.dimensions params) points.entry.coordinates.now)) }
    ensures boxes { lists.new.boxes.now ≡ put lists.old.boxes.now 0 (packed_boxes (levels (settings_of_lem points.entry.dimensions params) points.entry.coordinates.now)) }
    ensures borrowed { lists.new.borrowed.now ≡ put lists.old.borrowed.now 0 (packed_borrowed (levels (settings_of_lem points.entry.dimensions params) points.entry.coordinates.now)) }
    ensures cuts { records.new.cuts.now ≡ put records.old.cuts.now 0 (map whole_of (nodes_in (settings_of_lem points.entry.dimensions params) points.entry.coordinates.now (levels (settings_of_lem points.entry.dimensions params) points.entry.coordinates.now))) }
    ensures planes { records.new.planes.now ≡ put records.old.planes.now 0 (map float_of (nodes_in (settings_of_lem points.entry.dimensions params) points.entry.coordinates.now (levels (settings_of_lem points.entry.dimensions params) points.entry.coordinates.now))) }
{
    let n = points.count();
    stretches::number_rows(lists.level_points, n);
    grow_over::grow_over(engine, points, params, n, lists, room, records)
}
