// The breadth-first queue of domains: what a turn of its loop writes to the lent lists. The loop's laws are in proofs/.
#![tactic(auto)]

ghost use Rattle.std.specs.Prelude.{◌≡◌, ◌+◌, ◌-◌, ◌*◌, ◌/◌, ◌^◌, ◌≤◌, ◌<◌, [], ◌∷◌, length, get_or};
ghost use Rattle.lists.specs.Lists.{put};
ghost use Rattle.definition.specs.Packed.{row_numbers};
ghost use Rattle.queue.specs.Rows.{waiting_width, two_halves, two_own};
ghost use Rattle.queue.specs.Nodes.{nodes_under_lem};

// How many whole numbers the queue has of a domain that waits: start and count of its stretch, its depth, and its place in the record.
pub const WAITING: usize = 4;

// The stretch of rows that a domain has: its start and its count; the domain's depth; and the place of its node in the record. That they stay
// below 2^64 is asked by each that halves it, and is no promise of the type: `waiting_at` reads any four numbers.
#[derive(Clone, Copy)]
pub struct Stretch {
    pub start: usize,
    pub count: usize,
    pub depth: usize,
    pub place: usize,
}

impl Stretch {
    // Its two halves, one deeper: the first one, rounded down, and the rest. In the record the left half's node stands behind its own, and the
    // right half's behind the `below` nodes that are under the left one.
    pub fn halves(self, below: usize) -> (Stretch, Stretch)
        requires { (self.start + self.count < 2 ^ 64) × (self.depth + 1 < 2 ^ 64) × (self.place + 1 + below < 2 ^ 64) }
        ensures left { (result.0.start ≡ self.start) × (result.0.count ≡ self.count / 2) × (result.0.depth ≡ self.depth + 1) × (result.0.place ≡ self.place + 1) }
        ensures right { (result.1.start ≡ self.start + self.count / 2) × (result.1.count ≡ self.count - self.count / 2) × (result.1.depth ≡ self.depth + 1) × (result.1.place ≡ self.place + 1 + below) }
    {
        let half = self.count / 2;
        let depth = self.depth + 1;
        let place = self.place + 1;
        let left = Stretch {
            start: self.start,
            count: half,
            depth,
            place,
        };
        let right = Stretch {
            start: self.start + half,
            count: self.count - half,
            depth,
            place: place + below,
        };
        (left, right)
    }
}

// How many nodes of the record are under a domain of `size` rows, itself too, and how many under one of one row more. One size gives the next:
// the halves of both have half the size, rounded down, or one row more than that.
fn nodes_of_two(size: usize, leaf: usize) -> (usize, usize)
    requires { (1 ≤ leaf) × (size < 2 ^ 61) }
    ensures { (result.0 ≡ nodes_under_lem size leaf) × (result.1 ≡ nodes_under_lem (size + 1) leaf) }
{
    if (size + 1) / 2 < leaf {
        return (3, 3);
    }
    let half = size / 2;
    let (few, more) = nodes_of_two(half, leaf);
    let mixed = 1 + few + more;
    if size % 2 == 0 {
        return (1 + 2 * few, mixed);
    }
    if half < leaf {
        return (3, 1 + 2 * more);
    }
    (mixed, 1 + 2 * more)
}

// How many nodes of the record are under a domain of `size` rows, itself too.
pub fn nodes_under(size: usize, leaf: usize) -> usize
    requires { (1 ≤ leaf) × (size < 2 ^ 61) }
    ensures { result ≡ nodes_under_lem size leaf }
{
    nodes_of_two(size, leaf).0
}

// The domain that waits in a list from `at` on.
pub fn waiting_at(wholes: &[usize], at: usize) -> Stretch
    requires { at + waiting_width ≤ length wholes.now }
    ensures { (result.start ≡ get_or wholes.now at 0) × (result.count ≡ get_or wholes.now (at + 1) 0) × (result.depth ≡ get_or wholes.now (at + 2) 0) × (result.place ≡ get_or wholes.now (at + 3) 0) }
{
    Stretch {
        start: wholes[at],
        count: wholes[at + 1],
        depth: wholes[at + 2],
        place: wholes[at + 3],
    }
}

// Writes a domain that waits to a list, from `at` on.
pub fn put_waiting(wholes: &mut [usize], at: usize, stretch: Stretch)
    requires { at + waiting_width ≤ length wholes.old }
    ensures { wholes.new ≡ put wholes.old at (stretch.start ∷ stretch.count ∷ stretch.depth ∷ stretch.place ∷ []) }
{
    stretches::put_values(
        wholes,
        at,
        &[stretch.start, stretch.count, stretch.depth, stretch.place],
    );
}

// Writes the two halves of a stretch, the left one with `below` nodes under it, to a list, from `at` on: left before right.
pub fn put_halves(wholes: &mut [usize], at: usize, stretch: Stretch, below: usize)
    requires { (at + 2 * waiting_width ≤ length wholes.old) × (stretch.start + stretch.count < 2 ^ 64) × (stretch.depth + 1 < 2 ^ 64) × (stretch.place + 1 + below < 2 ^ 64) }
    ensures { wholes.new ≡ put wholes.old at (two_halves stretch.start stretch.count (stretch.depth + 1) stretch.place below) }
{
    let (left, right) = stretch.halves(below);
    put_waiting(wholes, at, left);
    put_waiting(wholes, at + WAITING, right);
}

// Writes the domain rows of two leaves from the k-th on: the halves of a stretch.
pub fn put_leaves(domains: &mut [usize], k: usize, stretch: Stretch)
    requires { (row_numbers * (k + 2) ≤ length domains.old) × (stretch.start + stretch.count < 2 ^ 64) × (stretch.depth + 1 < 2 ^ 64) × (stretch.place + 2 < 2 ^ 64) }
    ensures { domains.new ≡ two_own domains.old k stretch.start stretch.count (stretch.depth + 1) }
{
    let (left, right) = stretch.halves(1);
    packed::put_own(domains, k, left.start, left.count, left.depth);
    packed::put_own(domains, k + 1, right.start, right.count, right.depth);
}
