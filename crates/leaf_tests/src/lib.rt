// A leaf of a stored tree as it is tested before the tree is written or handed out, wherever its rows stand: for the writer and the loader
// alike.
#![tactic(auto)]

ghost use Rattle.std.specs.Prelude.{Bool, ℕ, ◌≤◌, length};
ghost use Rattle.marks.specs.Bits.{Marked};
ghost use Rattle.row_sets.specs.Lent.{SameSets};
ghost use Rattle.row_sets.specs.Tested.{LeftIsListed};
ghost use Rattle.leaf_tests.specs.Passed.{LeafPassed};

use leaf_depths::LeafLevel;
use row_sets::{LevelRows, Rows};

// How far the leaves of a level have passed: how many of its rows are left for those to come, and the least depth that the next one may have, that
// of the last one. It is 0 before the first: no depth is lower.
#[derive(Clone, Copy)]
pub struct LeavesPassed {
    pub remaining: usize,
    pub least: usize,
}

// How far the leaves have passed with one more, which has at most the rows left, where its depth and its rows pass; its own rows are then out
// of those left. Level and sets stay two values: the level is a copy, and the sets are made its rows before its leaves are tested.
pub fn check_leaf<O: Rows, B: Rows>(
    level: LeafLevel,
    passed: LeavesPassed,
    own: &O,
    borrowed: &B,
    depth: usize,
    sets: &mut LevelRows<'_>,
) -> Option<LeavesPassed>
    requires few { length (O.rows own.now) ≤ passed.remaining }
    requires kept { LeftIsListed sets.old.left.now sets.old.listed.now }
    ensures same { SameSets sets.old sets.new }
    ensures tested { (p q : ℕ → Bool) → Marked sets.old.left.now p → Marked sets.old.listed.now q
        → LeafPassed level.coarse level.rows (O.rows own.now) (B.rows borrowed.now) depth passed p q sets.new.left.now sets.new.listed.now result }
{
    if !level.depth_passes(passed.least, own.count(), depth) || !sets.rows_pass(own, borrowed) {
        return None;
    }
    Some(LeavesPassed {
        remaining: passed.remaining - own.count(),
        least: depth,
    })
}
