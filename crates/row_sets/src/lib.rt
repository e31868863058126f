// Rows that stand one after the other, wherever that is: asked for, marked, and taken out of sets.
#![tactic(auto)]

ghost use Rattle.std.specs.Prelude.{◌≡◌, Bool, true, ◌||◌, ℕ, ◌<◌, List, leb, length, get_or};
ghost use Rattle.lists.specs.Lists.{member};
ghost use Rattle.tree_tests.specs.InTurn.{without, in_order_lem};
ghost use Rattle.marks.specs.Bits.{Marked};
ghost use Rattle.row_sets.specs.Markable.{Markable};
ghost use Rattle.row_sets.specs.Order.{least_after};

mod level_rows;
mod row_tests;

pub use level_rows::LevelRows;

// The words of a set with a bit for each row of the largest tree, 1,048,576 rows.
pub const WORDS: usize = 16_384;

// Rows in a place of their own: how many they are, and each by its index. The loops below go by the index: a trait's method can't answer with an
// iterator that has no name, and one for each kind of rows would need laws of its own.
pub trait Rows {
    ghost rows: { Self → List ℕ };

    fn count(&self) -> usize
        ensures { result ≡ length (rows self.now) };

    fn row(&self, i: usize) -> usize
        requires { i < length (rows self.now) }
        ensures { result ≡ get_or (rows self.now) i 0 };
}

// Whether a row may stand behind the last one, if there is one.
#[tactic(auto, using(std::proofs::lemmas::Bool::Decides::nat_tests), unfolding(crate::specs::Order::least_after))]
fn follows(last: Option<usize>, row: usize) -> bool
    ensures { result ≡ leb (least_after last) row }
{
    match last {
        None => true,
        Some(last) => last < row,
    }
}

// Whether the rows ascend and are all in the set.
pub fn rows_marked<R: Rows>(rows: &R, words: &[usize]) -> bool
    ensures { (p : ℕ → Bool) → Marked words.now p → result ≡ in_order_lem 0 p (R.rows rows.now) }
{
    let mut last = None;
    for i in 0..rows.count() {
        let row = rows.row(i);
        if !follows(last, row) || !marks::is_marked(words, row) {
            return false;
        }
        last = Some(row);
    }
    true
}

// Marks the rows.
pub fn mark_rows<R: Rows>(rows: &R, words: &mut [usize])
    requires { Markable (R.rows rows.now) words.old }
    ensures { (p : ℕ → Bool) → Marked words.old p → Marked words.new (λ i. p i || member i (R.rows rows.now)) }
{
    for i in 0..rows.count() {
        let row = rows.row(i);
        marks::mark(words, row);
    }
}

// Takes the rows out of both sets, where they ascend and are all left, and says whether they are. One pass asks for a row and takes it out: tried as
// `rows_marked` and then a loop that unmarks, the test of 1,048,576 rows in leaves of 63 took a third longer.
// The sets come as two lists and no `LevelRows`: nothing is asked of them together.
pub fn take_rows<R: Rows>(rows: &R, left: &mut [usize], listed: &mut [usize]) -> bool
    ensures { (p q : ℕ → Bool) → Marked left.old p → Marked listed.old q
        → (result ≡ in_order_lem 0 p (R.rows rows.now))
        × (result ≡ true → Marked left.new (without (R.rows rows.now) p) × Marked listed.new (without (R.rows rows.now) q)) }
{
    let mut last = None;
    for i in 0..rows.count() {
        let row = rows.row(i);
        if !follows(last, row) || !marks::is_marked(left, row) {
            return false;
        }
        marks::unmark(left, row);
        marks::unmark(listed, row);
        last = Some(row);
    }
    true
}

// The rows of a list, or of a part of one.
impl<'a> Rows for &'a [usize] {
    ghost rows = { λ r. r.now };

    fn count(&self) -> usize {
        self.len()
    }

    fn row(&self, i: usize) -> usize {
        self[i]
    }
}
