// The loader: the tree that stands in the bytes of a file, handed out to lists that the caller lends.
#![tactic(auto)]

ghost use Rattle.std.specs.Prelude.{◌≡◌, is_some, IfSome};
ghost use Rattle.definition.specs.Refusals.{accepted, verdict};
ghost use Rattle.stored.specs.Stored.{levels_place, well_formed};
ghost use Rattle.stored.specs.Outcome.{own_tests};
ghost use Rattle.config.specs.Params.{settings_of_lem};
ghost use Rattle.tree_answer.specs.Answers.{tree_answer_lem};
ghost use Rattle.tree_lists.specs.Lent.{lists_in, SameLists};
ghost use Rattle.load.specs.Loading.{Loaded};

use config::{DDMParams, Settings};
use file_front::Front;
use points::Points;
use refusal::Refusal;
use tree_answer::DDMTree;
use tree_lists::TreeLists;

// Where the levels of a stored tree begin, if bytes are its file: the front is tested, then the levels.
pub fn check_file(bytes: &[u8]) -> Option<usize>
    ensures good { is_some result ≡ well_formed bytes.now }
    ensures place { IfSome result (λ next. next ≡ levels_place bytes.now) }
{
    let Front { settings, n, next } = file_front::check_front(bytes)?;
    let neighbours = settings.params.overlap_knn as usize;
    if !file_levels::check_tree(bytes, next, settings.dimensions, n, neighbours) {
        return None;
    }
    Some(next)
}

// The load of a call that the build's own tests let pass: the file's refusals, 20, 18 and 19, then its tree.
fn load_file(
    points: Points<'_>,
    params: DDMParams,
    bytes: &[u8],
    lists: &mut TreeLists<'_>,
) -> Result<DDMTree, Refusal>
    requires { verdict (own_tests (settings_of_lem points.dimensions params) points.coordinates.now (lists_in lists.old)) ≡ accepted }
    ensures same { SameLists lists.old lists.new }
    ensures loaded { Loaded (settings_of_lem points.entry.dimensions params) points.entry.coordinates.now bytes.now
        (lists_in lists.old) (lists_in lists.new) (tree_answer_lem result) }
{
    let place = check_file(bytes).ok_or(Refusal::NoSoundTree)?;
    let dimensions = points.dimensions;
    if !settings_record::same_settings(Settings { dimensions, params }, bytes) {
        return Err(Refusal::OtherSettings);
    }
    if !file_front::same_points(points, bytes) {
        return Err(Refusal::OtherPoints);
    }
    Ok(load_lists::put_levels(bytes, place, dimensions, lists))
}

// The load of a stored tree for the present points and settings. A refused call writes to no list. An accepted one writes the tree to
// the fronts of the five lists, and leaves what stands past it as it was.
pub fn load_tree(
    points: Points<'_>,
    params: DDMParams,
    bytes: &[u8],
    lists: &mut TreeLists<'_>,
) -> Result<DDMTree, Refusal>
    ensures same { SameLists lists.old lists.new }
    ensures loaded { Loaded (settings_of_lem points.entry.dimensions params) points.entry.coordinates.now bytes.now
        (lists_in lists.old) (lists_in lists.new) (tree_answer_lem result) }
{
    tree_checks::check_tree(points, params, lists.read())?;
    load_file(points, params, bytes, lists)
}
