// A node of the cut record, by value, and as lent: a whole number and a float; and a leaf's entry in the table of the engine that writes them.
#![tactic(auto)]

ghost use Rattle.std.specs.Prelude.{◌≡◌, [], ◌∷◌, ◌+◌, ◌^◌, ◌≤◌, ◌<◌, length, get_or, set};
ghost use Rattle.std.specs.Float.{nan};
ghost use Rattle.lists.specs.Lists.{put};
ghost use Rattle.definition.specs.Record.{whole_of, float_of};
ghost use Rattle.tree_lists.specs.Lent.{SameRecords};
ghost use Rattle.node.specs.Nodes.{as_node, node_of};

use tree_lists::Records;

// From this number on, a node is a leaf: its number comes on top.
pub const LEAF: usize = 3;

// How many whole numbers a leaf has in the engine's table of leaves.
pub const ENTRY: usize = 3;

// A leaf in that table: its depth, its count of rows, and the place of its node. No `Stretch` of queue, which has four numbers, of which three are these: a leaf's rows
// have no start there, since the leaves stand from left to right.
#[derive(Clone, Copy)]
pub struct Entry {
    pub depth: usize,
    pub count: usize,
    pub place: usize,
}

// A cut, with its axis and the coordinate of its plane, or a leaf with its number. An enum and no Option of a cut: a leaf is not the lack of
// one, since it has a number of its own.
#[derive(Clone, Copy)]
pub enum Node {
    Cut { axis: usize, plane: f64 },
    Leaf(usize),
}

// Writes a node to both lists of the record.
pub fn write_node(records: &mut Records<'_>, at: usize, node: Node)
    requires { (at < length records.old.cuts.now) × (at < length records.old.planes.now) × (whole_of (as_node node) < 2 ^ 64) }
    ensures same { SameRecords records.old records.new }
    ensures cuts { records.new.cuts.now ≡ set records.old.cuts.now at (whole_of (as_node node)) }
    ensures planes { records.new.planes.now ≡ set records.old.planes.now at (float_of (as_node node)) }
{
    match node {
        Node::Cut { axis, plane } => {
            records.cuts[at] = axis;
            records.planes[at] = plane;
        }
        Node::Leaf(number) => {
            records.cuts[at] = LEAF + number;
            records.planes[at] = 0.0;
        }
    }
}

// The entry that stands in a list from `at` on.
pub fn entry_at(wholes: &[usize], at: usize) -> Entry
    requires { at + 3 ≤ length wholes.now }
    ensures { (result.depth ≡ get_or wholes.now at 0) × (result.count ≡ get_or wholes.now (at + 1) 0) × (result.place ≡ get_or wholes.now (at + 2) 0) }
{
    Entry {
        depth: wholes[at],
        count: wholes[at + 1],
        place: wholes[at + 2],
    }
}

// Writes an entry to a list, from `at` on.
pub fn put_entry(wholes: &mut [usize], at: usize, entry: Entry)
    requires { at + 3 ≤ length wholes.old }
    ensures { wholes.new ≡ put wholes.old at (entry.depth ∷ entry.count ∷ entry.place ∷ []) }
{
    stretches::put_values(wholes, at, &[entry.depth, entry.count, entry.place]);
}

// The node at a place of both lists: what a reader of the record in Rattle goes by; C, Rust and Python read the two lists. Two slices: who reads a
// record holds its lists to read only, and `Records` of tree_lists holds them to be written.
pub fn node_at(cuts: &[usize], planes: &[f64], at: usize) -> Node
    requires { (at < length cuts.now) × (at < length planes.now) }
    ensures { as_node result ≡ node_of (get_or cuts.now at 0) (get_or planes.now at nan) }
{
    let whole = cuts[at];
    if whole < LEAF {
        Node::Cut {
            axis: whole,
            plane: planes[at],
        }
    } else {
        Node::Leaf(whole - LEAF)
    }
}
