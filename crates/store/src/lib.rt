// The writer: the tree that a caller's lists and counts hold, written as the bytes of a file to a list that the caller lends.
#![tactic(auto)]

ghost use Rattle.std.specs.Prelude.{◌≡◌};
ghost use Rattle.definition.specs.Refusals.{accepted, verdict};
ghost use Rattle.config.specs.Params.{settings_of_lem};
ghost use Rattle.tree_answer.specs.Answers.{counts_given};
ghost use Rattle.tree_lists.specs.Lent.{lists_read};
ghost use Rattle.stored.specs.Outcome.{own_tests};
ghost use Rattle.tree_tests.specs.Size.{file_size_lem};
ghost use Rattle.store.specs.Limits.{Limited};
ghost use Rattle.store.specs.Outcome.{store_report, Stored};

use config::DDMParams;
use list_domains::ListsPassed;
use points::Points;
use refusal::Refusal;
use tree_answer::{DDMTree, PackedTree};
use tree_lists::TreeRead;

// A domain's bytes after its rows and its box: the cover's, and the depth's.
const END: usize = bytes_in::FLOAT + bytes_in::NUMBER;

// The bytes of a tree's file, by its counts: the rows, domains and borrowed rows of all its levels. Each of its rows stands in it twice, as
// a level's row and as a domain's own; each domain has a cover and a depth, and all but the coarse one a box.
fn file_size(dimensions: usize, n: usize, levels: usize, all: ListsPassed) -> usize
    requires { Limited dimensions n levels all.rows all.domains all.borrowed }
    ensures { result ≡ file_size_lem dimensions n levels all.rows all.domains all.borrowed }
{
    let ListsPassed {
        rows,
        domains,
        borrowed,
    } = all;
    let bounds = bytes_in::FLOAT * boxes::box_width(dimensions);
    let front = file_front::HEAD + n * bytes_in::point_size(dimensions);
    let counts = bytes_in::COUNTS * (levels + domains);
    let numbers = bytes_in::NUMBER * (2 * rows + borrowed);
    let ends = END * domains;
    front + counts + numbers + ends + bounds * (domains - 1)
}

// The tree of a call that the build's own tests let pass: 20 where the lists and counts are not those of a sound tree, 11 where the file list
// has no room for its file, and the file otherwise. How many bytes were written.
fn store_sound(
    points: Points<'_>,
    params: DDMParams,
    counts: DDMTree,
    tree: TreeRead<'_>,
    file: &mut [u8],
) -> Result<usize, Refusal>
    requires { verdict (own_tests (settings_of_lem points.dimensions params) points.coordinates.now (lists_read tree)) ≡ accepted }
    ensures { Stored (settings_of_lem points.entry.dimensions params) points.entry.coordinates.now (counts_given counts)
        (lists_read tree.entry) file.old file.new (store_report result) }
{
    let dimensions = points.dimensions;
    let tree = PackedTree::of(&counts, tree, dimensions);
    let n = points.count();
    let neighbours = params.overlap_knn as usize;
    let passed = list_levels::check_lists(tree, n, neighbours).ok_or(Refusal::NoSoundTree)?;
    let size = file_size(dimensions, n, counts.levels, passed);
    if file.len() < size {
        return Err(Refusal::ShortList);
    }
    Ok(store_bytes::put_file(points, params, tree, file))
}

// Writes the file of the tree that stands in the lists with these counts, over these points and settings. The bytes go to the front of the
// file list, and the answer tells how many they are; what stands past them stays as it was. A refused call writes nothing.
pub fn store_tree(
    points: Points<'_>,
    params: DDMParams,
    counts: DDMTree,
    tree: TreeRead<'_>,
    file: &mut [u8],
) -> Result<usize, Refusal>
    ensures { Stored (settings_of_lem points.entry.dimensions params) points.entry.coordinates.now (counts_given counts)
        (lists_read tree.entry) file.old file.new (store_report result) }
{
    tree_checks::check_tree(points, params, tree)?;
    store_sound(points, params, counts, tree, file)
}
