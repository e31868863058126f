// The lists that a caller lends to a build, as one value each: the five lists of its tree, its working room, and the two lists of its records;
// the five lists of a tree that is only read; where the cut of a level writes to them; and arrays that the five lists are lent of.
// Lists, room and records stay three values: the loader and the writer are lent neither room nor records.
// They are lent on by `&mut`, and a function that takes one promises that it still holds the caller's lists (`SameLists` and the like).
#![tactic(auto)]

ghost use Rattle.std.specs.Prelude.{◌≡◌};
ghost use Rattle.tree_lists.specs.Lent.{lists_in, lists_read, arrays_held, all_filled};

// The five lists of a tree.
#[derive(Drop)]
pub struct TreeLists<'a> {
    pub level_points: &'a mut [usize],
    pub internals: &'a mut [usize],
    pub domains: &'a mut [usize],
    pub boxes: &'a mut [f64],
    pub borrowed: &'a mut [usize],
}

// What the cut of a level writes of a tree: the rows of its leaves, their domain rows and their boxes.
#[derive(Drop)]
pub struct LeafLists<'a> {
    pub internals: &'a mut [usize],
    pub domains: &'a mut [usize],
    pub boxes: &'a mut [f64],
}

// Where the cut of a level writes: the rows of its leaves go to the internals from `from` on, their domain rows and boxes from the `first`
// on, and the nodes of its record from `node` on. The boxes stand packed, behind `skip` floats that belong to no box. That each list has room
// from there on is asked by the engines: it relates start and lists to the rows, which are lent apart.
#[derive(Clone, Copy)]
pub struct Start {
    pub from: usize,
    pub first: usize,
    pub skip: usize,
    pub node: usize,
}

// The five lists of a tree, where they are only read. They are passed by value, as `tree: TreeRead<'_>`.
#[derive(Clone, Copy)]
pub struct TreeRead<'a> {
    pub level_points: &'a [usize],
    pub internals: &'a [usize],
    pub domains: &'a [usize],
    pub boxes: &'a [f64],
    pub borrowed: &'a [usize],
}

impl<'a> TreeLists<'a> {
    // The lists, to be read.
    pub fn read(&self) -> TreeRead<'_>
        ensures { lists_read result ≡ lists_in self.now }
    {
        TreeRead {
            level_points: self.level_points,
            internals: self.internals,
            domains: self.domains,
            boxes: self.boxes,
            borrowed: self.borrowed,
        }
    }
}

// The working room of a build.
#[derive(Drop)]
pub struct Room<'a> {
    pub floats: &'a mut [f64],
    pub wholes: &'a mut [usize],
}

// The lists that take the records of the cuts: whole numbers and floats of their nodes.
#[derive(Drop)]
pub struct Records<'a> {
    pub cuts: &'a mut [usize],
    pub planes: &'a mut [f64],
}

// Arrays for the five lists of a tree: the level points and the internals have P entries each, the domain rows D, the boxes B, and the
// borrowed rows O.
#[derive(Drop)]
pub struct TreeArrays<const P: usize, const D: usize, const B: usize, const O: usize> {
    level_points: [usize; P],
    internals: [usize; P],
    domains: [usize; D],
    boxes: [f64; B],
    borrowed: [usize; O],
}

impl<const P: usize, const D: usize, const B: usize, const O: usize> TreeArrays<P, D, B, O> {
    // Arrays that hold this number and this float everywhere.
    pub fn filled(n: usize, x: f64) -> TreeArrays<P, D, B, O>
        ensures { arrays_held result ≡ all_filled P D B O n x }
    {
        TreeArrays {
            level_points: [n; P],
            internals: [n; P],
            domains: [n; D],
            boxes: [x; B],
            borrowed: [n; O],
        }
    }

    // Lends them as one value.
    pub fn lend(&mut self) -> TreeLists<'_>
        ensures { lists_in result ≡ arrays_held self.old }
    {
        let TreeArrays {
            level_points,
            internals,
            domains,
            boxes,
            borrowed,
        } = self;
        TreeLists {
            level_points,
            internals,
            domains,
            boxes,
            borrowed,
        }
    }
}
