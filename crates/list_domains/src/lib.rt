// The leaves of a level that stand in packed lists, tested one after the other. The level's rows go along, those that it lists and those of
// them that no leaf before has.
#![tactic(auto)]

ghost use Rattle.std.specs.Prelude.{◌≡◌, ◌≤◌};
ghost use Rattle.packed.specs.View.{packed_of};
ghost use Rattle.packed.specs.Rows.{plain_row};
ghost use Rattle.stored.specs.Sound.{all_of};
ghost use Rattle.row_sets.specs.Lent.{SameSets};
ghost use Rattle.row_sets.specs.Tested.{LeftIsListed};
ghost use Rattle.list_domains.specs.Boxes.{bound_fits_lem, floats_fit_lem};
ghost use Rattle.list_domains.specs.InLists.{stretches_fit_lem};
ghost use Rattle.list_domains.specs.Passed.{Ready, DomainPassed, DomainsPassed};

use leaf_depths::LeafLevel;
use leaf_tests::LeavesPassed;
use packed::{DomainRow, Leaf, Packed};
use row_sets::LevelRows;

// How many rows, domains and borrowed rows levels have in all: where those of the next level start.
#[derive(Clone, Copy)]
pub struct ListsPassed {
    pub rows: usize,
    pub domains: usize,
    pub borrowed: usize,
}

// How far the leaves of a level have passed: where the own and the borrowed rows of the next one are to start, and what is left for it.
#[derive(Clone, Copy)]
pub struct SoFar {
    pub own_at: usize,
    pub borrowed_at: usize,
    pub leaves: LeavesPassed,
}

// Whether one bound of a box may stand there. The coarse domain has no box, and +0 in its place. The flag is that of `LeafLevel`, here and below.
#[tactic(auto, unfolding(crate::specs::Boxes::bound_fits_lem))]
fn bound_fits(x: f64, coarse: bool) -> bool
    ensures { result ≡ bound_fits_lem coarse x }
{
    if coarse {
        bytes_out::bits_of(x) == 0
    } else {
        !x.is_nan()
    }
}

// Whether each of these bounds may.
fn bounds_fit(bounds: &[f64], coarse: bool) -> bool
    ensures { result ≡ all_of (bound_fits_lem coarse) bounds.now }
{
    bounds.iter().all(|&x| bound_fits(x, coarse))
}

// Whether the floats of a leaf may stand there: the bounds of its box, and the cover, which may be any value but not-a-number.
#[tactic(auto, unfolding(crate::specs::Boxes::bound_fits_lem))]
fn floats_fit(leaf: Leaf<'_>, coarse: bool) -> bool
    ensures { result ≡ floats_fit_lem coarse leaf.entry.bounds.now leaf.entry.cover }
{
    bounds_fit(leaf.bounds, coarse) && !leaf.cover.is_nan()
}

// Whether a domain row's stretches start where those before them end, and end inside what is left: only then do they lie inside their lists, and
// the leaf can be lent.
#[tactic(auto, using(std::proofs::lemmas::Bool::Decides::nat_tests), unfolding(crate::specs::InLists::stretches_fit_lem))]
fn stretches_fit(row: DomainRow, most: usize, so_far: SoFar) -> bool
    requires { so_far.borrowed_at ≤ most }
    ensures { result ≡ stretches_fit_lem (plain_row row) most so_far.own_at so_far.borrowed_at so_far.leaves.remaining }
{
    row.internal_start == so_far.own_at
        && row.borrowed_start == so_far.borrowed_at
        && row.internal_count <= so_far.leaves.remaining
        && row.borrowed_count <= most - so_far.borrowed_at
}

// How far the leaves have passed with the domain row number j and its leaf, where these pass. All borrowed rows are to end by `borrowed_most`.
// That the lists have room for the row (`Ready`) is asked here and below: it relates the tree to how far its leaves have passed, two values. The
// most borrowed rows go beside the tree, here and in list_levels, and cut no list of it: of a tree with a shorter list each clause would be led back
// to the one that is lent.
pub fn check_domain(
    tree: Packed<'_>,
    j: usize,
    level: LeafLevel,
    borrowed_most: usize,
    so_far: SoFar,
    sets: &mut LevelRows<'_>,
) -> Option<SoFar>
    requires ready { Ready (packed_of tree) borrowed_most j 1 so_far.own_at so_far.borrowed_at so_far.leaves.remaining }
    requires kept { LeftIsListed sets.old.left.now sets.old.listed.now }
    ensures same { SameSets sets.old sets.new }
    ensures tested { DomainPassed level.coarse (packed_of tree.entry) borrowed_most level.rows j so_far.own_at so_far.borrowed_at so_far.leaves.remaining
        so_far.leaves.least sets.old.left.now sets.old.listed.now sets.new.left.now sets.new.listed.now result }
{
    let row = packed::read_row(tree.domains, j);
    if !stretches_fit(row, borrowed_most, so_far) {
        return None;
    }
    let leaf = tree.leaf(j);
    if !floats_fit(leaf, level.coarse) {
        return None;
    }
    let leaves = leaf_tests::check_leaf(
        level,
        so_far.leaves,
        &leaf.own,
        &leaf.borrowed,
        leaf.depth,
        sets,
    )?;
    Some(SoFar {
        own_at: so_far.own_at + row.internal_count,
        borrowed_at: so_far.borrowed_at + row.borrowed_count,
        leaves,
    })
}

// Whether the next `count` domain rows, behind those of the levels before, pass, and have just the rows that their level lists as their own
// rows; where they do, where their borrowed rows end. The loop of file_domains carries other values, and says why there are two.
// A number of rows, and no slice: a leaf stands in four lists, and the number of its row finds it in each.
pub fn check_domains(
    tree: Packed<'_>,
    before: ListsPassed,
    count: usize,
    level: LeafLevel,
    borrowed_most: usize,
    sets: &mut LevelRows<'_>,
) -> Option<usize>
    requires ready { Ready (packed_of tree) borrowed_most before.domains count before.rows before.borrowed level.rows }
    requires kept { LeftIsListed sets.old.left.now sets.old.listed.now }
    ensures same { SameSets sets.old sets.new }
    ensures tested { DomainsPassed level.coarse (packed_of tree.entry) borrowed_most before.domains before.rows before.borrowed level.rows count
        sets.old.left.now sets.old.listed.now sets.new.listed.now result }
{
    let mut so_far = SoFar {
        own_at: before.rows,
        borrowed_at: before.borrowed,
        leaves: LeavesPassed {
            remaining: level.rows,
            least: 0,
        },
    };
    for i in 0..count {
        so_far = check_domain(tree, before.domains + i, level, borrowed_most, so_far, sets)?;
    }
    if so_far.leaves.remaining != 0 {
        return None;
    }
    Some(so_far.borrowed_at)
}
