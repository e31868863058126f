// The levels of a tree that stand in packed lists, tested one after the other, and the whole tree.
#![tactic(auto)]

ghost use Rattle.std.specs.Prelude.{◌≡◌, false, ◌&&◌, ◌*◌, ◌+◌, ◌≤◌, ◌<◌, leb, eqb, length, get_or};
ghost use Rattle.definition.specs.Tree.{Settings};
ghost use Rattle.definition.specs.Packed.{tree_stated};
ghost use Rattle.definition.specs.Refusals.{most_points, most_neighbours};
ghost use Rattle.packed.specs.View.{packed_of};
ghost use Rattle.stored.specs.Outcome.{lists_short_lem};
ghost use Rattle.tree_answer.specs.Answers.{tree_counts, lists_of};
ghost use Rattle.row_sets.specs.Lent.{SameSets};
ghost use Rattle.list_levels.specs.InLists.{count_fits_lem, one_only, all_zero, four_counts_lem, counts_stand_lem};
ghost use Rattle.list_levels.specs.Passed.{LevelReady, NextReady, LevelsReady, LevelPassed, NextPassed, LevelsPassed, TreePassed};

use leaf_depths::LeafLevel;
use list_domains::ListsPassed;
use row_sets::{LevelRows, WORDS};
use tree_answer::{MOST_LEVELS, PackedTree};

// Whether a level's rows are listed above, and its domain rows pass with these rows listed; where they do, where its borrowed rows end. They
// stand behind those of the levels before.
pub fn check_level(
    tree: PackedTree<'_>,
    before: ListsPassed,
    count: usize,
    level: LeafLevel,
    borrowed_most: usize,
    sets: &mut LevelRows<'_>,
) -> Option<usize>
    requires { LevelReady (packed_of tree.leaves) tree.level_points.now borrowed_most before.domains count before.rows before.borrowed level.rows }
    ensures same { SameSets sets.old sets.new }
    ensures tested { LevelPassed level.coarse (packed_of tree.entry.leaves) tree.entry.level_points.now borrowed_most before.domains before.rows before.borrowed
        level.rows count sets.old.listed.now sets.new.listed.now result }
{
    let points = &tree.level_points[before.rows..before.rows + level.rows];
    if !sets.narrow(&points) {
        return None;
    }
    list_domains::check_domains(tree.leaves, before, count, level, borrowed_most, sets)
}

// Whether a level may have so many rows: the first one all n, and any other some, and fewer than the level above it.
fn count_fits(t: usize, n: usize, above: usize, rows: usize) -> bool
    ensures { result ≡ count_fits_lem t n above rows }
{
    if t == 0 {
        rows == n
    } else {
        0 < rows && rows < above
    }
}

// Whether a level may have so many domains: the coarse one just one, any other not one, and no more than there is room for. The flag is that of
// `LeafLevel`.
fn domains_fit(coarse: bool, count: usize, room: usize) -> bool
    ensures { result ≡ (one_only coarse count && leb count room) }
{
    count <= room && (count == 1) == coarse
}

// Whether each of these counts is 0.
fn all_zero(counts: &[usize]) -> bool
    ensures { result ≡ all_zero counts.now }
{
    counts.iter().all(|&count| count == 0)
}

// The level number t, where the levels before it have passed: its counts, and the level itself. The answer is that of all levels to this one.
fn next_level(
    tree: PackedTree<'_>,
    n: usize,
    borrowed_most: usize,
    t: usize,
    above: usize,
    done: ListsPassed,
    sets: &mut LevelRows<'_>,
) -> Option<ListsPassed>
    requires ready { NextReady (packed_of tree.leaves) tree.level_points.now n borrowed_most above done }
    requires counted { (t < length tree.rows.now) × (t < length tree.domains.now) }
    ensures same { SameSets sets.old sets.new }
    ensures tested { NextPassed (eqb (t + 1) tree.entry.levels) (packed_of tree.entry.leaves) tree.entry.level_points.now n borrowed_most t above
        (get_or tree.entry.rows.now t 0) (get_or tree.entry.domains.now t 0) done sets.old.listed.now sets.new.listed.now result }
{
    let level = LeafLevel {
        rows: tree.rows[t],
        coarse: t + 1 == tree.levels,
    };
    if !count_fits(t, n, above, level.rows) {
        return None;
    }
    let count = tree.domains[t];
    if !domains_fit(level.coarse, count, rows::most_domains(n) - done.domains) {
        return None;
    }
    let borrowed = check_level(tree, done, count, level, borrowed_most, sets)?;
    Some(ListsPassed {
        rows: done.rows + level.rows,
        domains: done.domains + count,
        borrowed,
    })
}

// The levels by their row and domain counts, from the first one, above which all n rows are listed, to the coarse one.
pub fn check_levels(
    tree: PackedTree<'_>,
    n: usize,
    borrowed_most: usize,
    sets: &mut LevelRows<'_>,
) -> Option<ListsPassed>
    requires { LevelsReady (packed_of tree.leaves) tree.level_points.now (tree_counts tree) n borrowed_most sets.old.listed.now }
    ensures same { SameSets sets.old sets.new }
    ensures tested { LevelsPassed (packed_of tree.entry.leaves) tree.entry.level_points.now (tree_counts tree.entry) n borrowed_most result }
{
    let mut done = ListsPassed {
        rows: 0,
        domains: 0,
        borrowed: 0,
    };
    let mut above = n;
    for t in 0..tree.levels {
        done = next_level(tree, n, borrowed_most, t, above, done, sets)?;
        above = tree.rows[t];
    }
    Some(done)
}

// Whether there is a count for each level that there can be, no more levels are told, and no count stands beyond the last one: counts of any other
// length are no tree's.
#[tactic(auto, using(std::proofs::lemmas::Bool::Decides::nat_tests, std::proofs::lemmas::List::take_rest), unfolding(crate::specs::InLists::four_counts_lem))]
fn four_counts(levels: usize, counts: &[usize]) -> bool
    ensures { result ≡ four_counts_lem levels counts.now }
{
    counts.len() == MOST_LEVELS && levels <= MOST_LEVELS && all_zero(&counts[levels..])
}

// Whether there are one to four levels, and their counts stand.
#[tactic(auto, using(std::proofs::lemmas::Bool::Decides::nat_tests), unfolding(crate::specs::InLists::counts_stand_lem))]
fn counts_stand(tree: PackedTree<'_>) -> bool
    ensures { result ≡ counts_stand_lem (tree_counts tree.entry) }
{
    0 < tree.levels && four_counts(tree.levels, tree.rows) && four_counts(tree.levels, tree.domains)
}

// The tree in the lists with these counts, where it passes the tests of a stored tree over n rows.
pub fn check_lists(tree: PackedTree<'_>, n: usize, neighbours: usize) -> Option<ListsPassed>
    requires { (tree.leaves.dimensions ≤ 3) × (n ≤ most_points) × (neighbours ≤ most_neighbours)
        × (lists_short_lem (lists_of tree.level_points.now tree.leaves.internals.now tree.leaves.domains.now tree.leaves.boxes.now tree.leaves.borrowed.now)
        (tree_stated tree.leaves.dimensions n neighbours) ≡ false) }
    ensures { (s : Settings) → s.dimension ≡ tree.entry.leaves.dimensions → s.neighbours ≡ neighbours
        → TreePassed s n (tree_counts tree.entry)
        (lists_of tree.entry.level_points.now tree.entry.leaves.internals.now tree.entry.leaves.domains.now tree.entry.leaves.boxes.now
        tree.entry.leaves.borrowed.now) result }
{
    if !counts_stand(tree) {
        return None;
    }
    let mut left = [0; WORDS];
    let mut listed = [0; WORDS];
    let mut sets = LevelRows::below(n, &mut left, &mut listed);
    check_levels(tree, n, rows::most_borrowed(n, neighbours), &mut sets)
}
