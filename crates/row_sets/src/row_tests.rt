// Rows tested against the two sets of a level. Not in the file of the type: its ghost field takes along what that file uses, and `SameSets` names the
// type.
#![tactic(auto)]

ghost use Rattle.std.specs.Prelude.{◌≡◌, Bool, true, ℕ};
ghost use Rattle.tree_tests.specs.InTurn.{among, in_order_lem};
ghost use Rattle.marks.specs.Bits.{Marked};
ghost use Rattle.row_sets.specs.Lent.{SameSets};
ghost use Rattle.row_sets.specs.Tested.{LeftIsListed, RowsPassed};

use crate::{LevelRows, Rows};

impl<'a> LevelRows<'a> {
    // Whether a domain's own rows ascend and are left, and its borrowed rows ascend and are listed rows of others; takes the own rows
    // out of those left. That what is left is listed is asked here and by those who call this, and is no promise of the type, which would ask more:
    // `narrow` takes any two sets of as many words.
    pub fn rows_pass<O: Rows, B: Rows>(&mut self, own: &O, borrowed: &B) -> bool
        requires { LeftIsListed self.old.left.now self.old.listed.now }
        ensures same { SameSets self.old self.new }
        ensures tested { (p q : ℕ → Bool) → Marked self.old.left.now p → Marked self.old.listed.now q
            → RowsPassed (O.rows own.now) (B.rows borrowed.now) p q self.new.left.now self.new.listed.now result }
    {
        let left: &mut [usize] = self.left;
        let listed: &mut [usize] = self.listed;
        if !crate::take_rows(own, left, listed) {
            return false;
        }
        if !crate::rows_marked(borrowed, listed) {
            return false;
        }
        crate::mark_rows(own, listed);
        true
    }

    // Whether the rows ascend and are all listed; where they are, both sets become these rows.
    pub fn narrow<R: Rows>(&mut self, rows: &R) -> bool
        ensures same { SameSets self.old self.new }
        ensures asked { (p : ℕ → Bool) → Marked self.old.listed.now p → result ≡ in_order_lem 0 p (R.rows rows.now) }
        ensures set { result ≡ true → Marked self.new.left.now (among (R.rows rows.now)) × Marked self.new.listed.now (among (R.rows rows.now)) }
    {
        let left: &mut [usize] = self.left;
        let listed: &mut [usize] = self.listed;
        if !crate::rows_marked(rows, listed) {
            return false;
        }
        marks::clear(left);
        crate::mark_rows(rows, left);
        stretches::copy_values(listed, left);
        true
    }
}
