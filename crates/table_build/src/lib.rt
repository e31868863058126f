// The build over the live slots of a table of wells.
#![tactic(auto)]

ghost use Rattle.config.specs.Params.{settings_of_lem};
ghost use Rattle.tree_answer.specs.Answers.{tree_answer_lem};
ghost use Rattle.tree_lists.specs.Lent.{lists_in, records_in, SameLists, SameRoom, SameRecords};
ghost use Rattle.table_checks.specs.Tables.{table_in};
ghost use Rattle.table_build.specs.Outcome.{BuiltSlots};

use build_sizes::BuildSizes;
use config::DDMParams;
use cut_engine::Engine;
use refusal::Refusal;
use table_checks::Table;
use tree_answer::DDMTree;
use tree_lists::{Records, Room, TreeLists};

// The build over the live slots, in slot order: rows in every list are slots, and n is the live count. A refused call writes to no list.
// An accepted one writes its tree to the fronts of the five lists, and the records of its fine levels, one after the other, to the fronts of
// `cuts` and `planes`; what stands past them stays as it was. Of the working room it keeps only the length.
pub fn build_slots(
    table: Table<'_>,
    params: DDMParams,
    lists: &mut TreeLists<'_>,
    room: &mut Room<'_>,
    records: &mut Records<'_>,
) -> Result<DDMTree, Refusal>
    ensures same { SameLists lists.old lists.new × SameRoom room.old room.new × SameRecords records.old records.new }
    ensures built { BuiltSlots (settings_of_lem table.entry.points.dimensions params) (table_in table.entry)
        (lists_in lists.old) (lists_in lists.new) room.old.floats.now room.new.floats.now
        room.old.wholes.now room.new.wholes.now
        (records_in records.old) (records_in records.new) (tree_answer_lem result) }
{
    let lent = BuildSizes::lent(lists, room, records);
    slots_checks::check_slots(table, params, lent)?;
    live_slots::list_live(table, lists.level_points);
    Ok(grow_over::grow_over(
        Engine::Queue,
        table.points,
        params,
        table.head.live,
        lists,
        room,
        records,
    ))
}
