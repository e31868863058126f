// The counts of a tree, which a build and a load answer with and a caller hands back; and a whole tree, by its counts and its lists.
#![tactic(auto)]

ghost use Rattle.std.specs.Prelude.{◌≡◌};
ghost use Rattle.tree_answer.specs.Answers.{packed_leaves};

use packed::Packed;
use tree_lists::TreeRead;

// The most levels that a tree has: three fine ones and the coarse one.
pub const MOST_LEVELS: usize = 4;

// How many levels the tree has, and how many rows and domains each of them has. Arrays of four beside the number of levels: the counts go by
// value to a slot of C and back, and the library has no heap for lists of their length. The default, no counts, is what a caller is told of a
// refused call.
#[derive(Clone, Copy, Default)]
pub struct DDMTree {
    pub levels: usize,
    pub rows: [usize; MOST_LEVELS],
    pub domains: [usize; MOST_LEVELS],
}

// A tree: how many levels it has, how many rows and domains each of them has, the rows of its levels, one level after the other, and its leaves.
// It is passed by value, as `tree: PackedTree<'_>`. Two lists of counts and how many levels, and no list of pairs: a tree's counts are lent as they
// are read, of the arrays of a `DDMTree`; the lists may have any length, and `levels` says how much of them is used. That the tree stands there is
// asked by those who read it: whoever lends lists to the writer may lend others.
#[derive(Clone, Copy)]
pub struct PackedTree<'a> {
    pub levels: usize,
    pub rows: &'a [usize],
    pub domains: &'a [usize],
    pub level_points: &'a [usize],
    pub leaves: Packed<'a>,
}

impl<'a> PackedTree<'a> {
    // The tree with these counts in the lists of a tree on so many axes.
    pub fn of(counts: &'a DDMTree, lists: TreeRead<'a>, dimensions: usize) -> PackedTree<'a>
        ensures levels { result.levels ≡ counts.now.levels }
        ensures rows { result.rows.now ≡ counts.now.rows }
        ensures domains { result.domains.now ≡ counts.now.domains }
        ensures level_points { result.level_points ≡ lists.entry.level_points }
        ensures leaves { result.leaves ≡ packed_leaves lists.entry dimensions }
    {
        PackedTree {
            levels: counts.levels,
            rows: &counts.rows,
            domains: &counts.domains,
            level_points: lists.level_points,
            leaves: Packed {
                internals: lists.internals,
                domains: lists.domains,
                boxes: lists.boxes,
                borrowed: lists.borrowed,
                dimensions,
            },
        }
    }
}
