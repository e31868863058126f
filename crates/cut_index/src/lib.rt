// The index of a level's record: for each node the place of its right half, and the least position of a row under it.
#![tactic(auto)]

ghost use Rattle.std.specs.Prelude.{◌≡◌, ℕ, List, [], ◌∷◌, ◌+◌, ◌-◌, ◌*◌, ◌≤◌, length, get_or};
ghost use Rattle.lists.specs.Lists.{put, part};
ghost use Rattle.definition.specs.Packed.{row_numbers};
ghost use Rattle.definition.specs.Record.{Cuts};
ghost use Rattle.packed.specs.Reading.{own_start, own_count};
ghost use Rattle.record_laws.specs.Table.{node_count};
ghost use Rattle.cut_index.specs.Filed.{index_width, Filed};
ghost use Rattle.cut_index.specs.Recorded.{most_whole, least_under, index_of, Recorded};

use node::Node;
use packed::LevelLeaves;

// How many numbers the index has of a node.
pub const ENTRY: usize = 2;

// What a search of a level goes by: both lists of its record, the index over them, its leaves, whose own rows stand from `from` on, and the
// positions of those rows in the active list, in the order in which they stand. It is passed by value.
#[derive(Clone, Copy)]
pub struct CutIndex<'a> {
    pub cuts: &'a [usize],
    pub planes: &'a [f64],
    pub index: &'a [usize],
    pub leaves: LevelLeaves<'a>,
    pub from: usize,
    pub positions: &'a [usize],
}

// The same without the index, which is made of it.
#[derive(Clone, Copy)]
struct CutRecord<'a> {
    cuts: &'a [usize],
    planes: &'a [f64],
    leaves: LevelLeaves<'a>,
    from: usize,
    positions: &'a [usize],
}

// The place of the node behind those of a domain, and the least position of a row under it.
#[derive(Clone, Copy)]
struct Under {
    next: usize,
    least: usize,
}

// Writes what the index has of the node at a place.
fn put_entry(index: &mut [usize], at: usize, right: usize, least: usize)
    requires { index_width * (at + 1) ≤ length index.old }
    ensures { index.new ≡ put index.old (index_width * at) (right ∷ least ∷ []) }
{
    stretches::put_values(index, ENTRY * at, &[right, least]);
}

impl CutRecord<'_> {
    ghost use Rattle.cut_index.specs.Indexed.{RecordedBy};

    // The position of the first row of the leaf with this number, or the greatest number where it has none. Its rows ascend, so that this is
    // the least of their positions.
    fn least_of(self, number: usize) -> usize
        requires { (row_numbers * (self.leaves.first + number + 1) ≤ length self.leaves.domains.now) × (self.from ≤ own_start self.leaves.domains.now (self.leaves.first + number))
            × (own_start self.leaves.domains.now (self.leaves.first + number) - self.from + own_count self.leaves.domains.now (self.leaves.first + number) ≤ length self.positions.now) }
        ensures { result ≡ get_or (part self.entry.positions.now (own_start self.entry.leaves.domains.now (self.entry.leaves.first + number) - self.entry.from)
            (own_count self.entry.leaves.domains.now (self.entry.leaves.first + number))) 0 most_whole }
    {
        let row = self.leaves.row(number);
        let start = row.internal_start - self.from;
        let places = &self.positions[start..start + row.internal_count];
        places.first().copied().unwrap_or(usize::MAX)
    }

    // Writes the index of all nodes of a domain whose record stands from `at` on. What falls from call to call is how many nodes are left.
    fn put_under(self, at: usize, index: &mut [usize]) -> Under
        requires recorded { (active : List ℕ) × (t : Cuts) × RecordedBy self active t at }
        requires room { index_width * length self.cuts.now ≤ length index.old }
        ensures { (active : List ℕ) (t : Cuts) → RecordedBy self.entry active t at
            → (result.next ≡ at + node_count t) × (result.least ≡ least_under active t) × (index.new ≡ put index.old (index_width * at) (index_of active t at)) }
    {
        match node::node_at(self.cuts, self.planes, at) {
            Node::Leaf(number) => {
                let least = self.least_of(number);
                put_entry(index, at, 0, least);
                Under {
                    next: at + 1,
                    least,
                }
            }
            Node::Cut { .. } => {
                let left = self.put_under(at + 1, index);
                let right = self.put_under(left.next, index);
                let least = left.least.min(right.least);
                put_entry(index, at, left.next, least);
                Under {
                    next: right.next,
                    least,
                }
            }
        }
    }
}

// Writes the index of a level's whole record to the front of `index`, and leaves the rest of it as it is. The lists come one by one: the borrow
// checker does not cover a struct that a caller makes of references of its own and of others that it was lent.
pub fn put_index(
    cuts: &[usize],
    planes: &[f64],
    leaves: LevelLeaves<'_>,
    from: usize,
    positions: &[usize],
    index: &mut [usize],
)
    requires recorded { (active : List ℕ) × (t : Cuts) × Recorded active cuts.now planes.now leaves.internals.now leaves.domains.now leaves.first leaves.count from positions.now t 0 }
    requires room { index_width * length cuts.now ≤ length index.old }
    ensures whole { (active : List ℕ) (t : Cuts) → Recorded active cuts.now planes.now leaves.entry.internals.now leaves.entry.domains.now leaves.entry.first leaves.entry.count from positions.now t 0
        → index.new ≡ put index.old 0 (index_of active t 0) }
    ensures filed { (active : List ℕ) (t : Cuts) → Recorded active cuts.now planes.now leaves.entry.internals.now leaves.entry.domains.now leaves.entry.first leaves.entry.count from positions.now t 0
        → Filed active cuts.now planes.now index.new leaves.entry.internals.now leaves.entry.domains.now leaves.entry.first leaves.entry.count from positions.now t 0 }
{
    let level = CutRecord {
        cuts,
        planes,
        leaves,
        from,
        positions,
    };
    level.put_under(0, index);
}
