// The library: the build of a multilevel domain tree over points, or over the live slots of a table of wells, written to lists that the
// caller lends; the table's edits; the tree stored and loaded; and the other calls. The library has no heap: memory is the caller's, so that
// every list is lent.
#![tactic(auto)]

ghost use Rattle.config.specs.Params.{settings_of_lem};
ghost use Rattle.tree_answer.specs.Answers.{tree_answer_lem};
ghost use Rattle.tree_lists.specs.Lent.{lists_in, records_in, SameLists, SameRoom, SameRecords};
ghost use Rattle.points_build.specs.Outcome.{Built};

use cut_engine::Engine;

// The settings, and the other calls, each with its answer.
pub use build_sizes::{BuildSizes, TreeSizes, build_sizes};
pub use closing::closed;
pub use config::{DDMParams, SizePolicy};
pub use leaf_rows::{Which, row_test, rows_of};
pub use level_sizes::get_num_level_coarse_points;
pub use load::load_tree;
pub use packed::{DomainRow, Packed};
pub use points::Points;
pub use quotas::{Seated, get_domain_coarse_quotas};
pub use refusal::Refusal;
pub use root::square_root;
pub use sampling::{Sampled, farthest_point_sampling};
pub use store::store_tree;
pub use table::{Head, Table, Wells, add, close, retire};
pub use table_build::build_slots;
pub use table_edits::{Edited, added, retired};
pub use tree_answer::DDMTree;
pub use tree_lists::{Records, Room, TreeLists, TreeRead};

// The build over all points; domains wait in a queue. A refused call writes to no list. An accepted one writes its tree to the fronts of the
// five lists, and the records of its fine levels, one after the other, to the fronts of `cuts` and `planes`; what stands past them stays as it
// was. Of the working room it keeps only the length.
pub fn build(
    points: Points<'_>,
    params: DDMParams,
    lists: &mut TreeLists<'_>,
    room: &mut Room<'_>,
    records: &mut Records<'_>,
) -> Result<DDMTree, Refusal>
    ensures same { SameLists lists.old lists.new × SameRoom room.old room.new × SameRecords records.old records.new }
    ensures built { Built (settings_of_lem points.entry.dimensions params) points.entry.coordinates.now
        (lists_in lists.old) (lists_in lists.new) room.old.floats.now room.new.floats.now
        room.old.wholes.now room.new.wholes.now
        (records_in records.old) (records_in records.new) (tree_answer_lem result) }
{
    points_build::build_by(Engine::Queue, points, params, lists, room, records)
}

// The same build, depth first: the left half of a domain is cut completely before the right one. All that it answers and writes is the same.
pub fn build_depth_first(
    points: Points<'_>,
    params: DDMParams,
    lists: &mut TreeLists<'_>,
    room: &mut Room<'_>,
    records: &mut Records<'_>,
) -> Result<DDMTree, Refusal>
    ensures same { SameLists lists.old lists.new × SameRoom room.old room.new × SameRecords records.old records.new }
    ensures built { Built (settings_of_lem points.entry.dimensions params) points.entry.coordinates.now
        (lists_in lists.old) (lists_in lists.new) room.old.floats.now room.new.floats.now
        room.old.wholes.now room.new.wholes.now
        (records_in records.old) (records_in records.new) (tree_answer_lem result) }
{
    points_build::build_by(Engine::DepthFirst, points, params, lists, room, records)
}
