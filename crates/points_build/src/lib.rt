// The build over all points, by either engine.
#![tactic(auto)]

ghost use Rattle.config.specs.Params.{settings_of_lem};
ghost use Rattle.tree_answer.specs.Answers.{tree_answer_lem};
ghost use Rattle.tree_lists.specs.Lent.{lists_in, records_in, SameLists, SameRoom, SameRecords};
ghost use Rattle.points_build.specs.Outcome.{Built};

use build_sizes::BuildSizes;
use config::DDMParams;
use cut_engine::Engine;
use points::Points;
use refusal::Refusal;
use tree_answer::DDMTree;
use tree_lists::{Records, Room, TreeLists};

// The build over all points, by this engine. A refused call writes to no list. An accepted one writes its tree to the fronts of the five
// lists, and the records of its fine levels, one after the other, to the fronts of `cuts` and `planes`; what stands past them stays as it was.
// Of the working room it keeps only the length.
pub fn build_by(
    engine: Engine,
    points: Points<'_>,
    params: DDMParams,
    lists: &mut TreeLists<'_>,
    room: &mut Room<'_>,
    records: &mut Records<'_>,
) -> Result<DDMTree, Refusal>
    ensures same { SameLists lists.old lists.new × SameRoom room.old room.new × SameRecords records.old records.new }
    ensures built { Built (settings_of_lem points.entry.dimensions params) points.entry.coordinates.now
        (lists_in lists.old) (lists_in lists.new) room.old.floats.now room.new.floats.now
        room.old.wholes.now room.new.wholes.now
        (records_in records.old) (records_in records.new) (tree_answer_lem result) }
{
    let lent = BuildSizes::lent(lists, room, records);
    build_checks::check_build(points, params, lent)?;
    Ok(grow::grow(engine, points, params, lists, room, records))
}
