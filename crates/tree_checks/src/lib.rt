// The build's own refusals for a call that is lent the five lists of a tree, and neither working room nor lists of records: those of the loader and
// the writer.
#![tactic(auto)]

ghost use Rattle.std.specs.Prelude.{◌≡◌};
ghost use Rattle.definition.specs.Refusals.{verdict};
ghost use Rattle.stored.specs.Outcome.{own_tests};
ghost use Rattle.config.specs.Params.{settings_of_lem};
ghost use Rattle.refusal.specs.Refusals.{verdict_of};
ghost use Rattle.tree_lists.specs.Lent.{lists_read};

use build_sizes::TreeSizes;
use config::DDMParams;
use points::Points;
use refusal::Refusal;
use tree_lists::TreeRead;

// The tests of a build over these points, with these five lists alone.
pub fn check_tree(points: Points<'_>, params: DDMParams, lists: TreeRead<'_>) -> Result<(), Refusal>
    ensures { verdict_of result ≡ verdict (own_tests (settings_of_lem points.entry.dimensions params) points.entry.coordinates.now (lists_read lists.entry)) }
{
    let lent = TreeSizes::of(lists);
    build_checks::check_points(points, params, |n| {
        build_checks::is_tree_short(lent, points.dimensions, n, params.overlap_knn as usize)
    })
}
