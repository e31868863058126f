// The pairs of rows that two leaves lend each other, each as a number: the leaf that borrows, and the position of the row.
#![tactic(auto)]

ghost use Rattle.std.specs.Prelude.{◌≡◌, ℕ, ◌+◌, ◌*◌, ◌%◌, ◌<◌, ◌≤◌, length, get_or};
ghost use Rattle.lists.specs.Lists.{put};
ghost use Rattle.definition.specs.Refusals.{most_neighbours};
ghost use Rattle.rows.specs.Rows.{most_leaves};
ghost use Rattle.search.specs.Visits.{Searchable};
ghost use Rattle.overlap_pairs.specs.Pairs.{code, pairs_of, PairRoom, TakenBy, Owners, EachOnce, CollectedBy};

use search::Search;

// How many positions there are at most.
const POSITIONS: usize = rows::MOST_LEAVES;

// Room for the nearest rows: the neighbours of a row.
const NEAREST: usize = rows::MOST_NEIGHBOURS as usize;

// A leaf and a position as one number: in order of the leaves, and then of the positions. One number and no pair: the room that is lent is whole
// numbers, and the sort orders them by leaf and then by position.
pub fn code(leaf: usize, position: usize) -> usize
    requires { (leaf ≤ most_leaves) × (position < most_leaves) }
    ensures { result ≡ code leaf position }
{
    leaf * POSITIONS + position
}

// The position in such a number.
pub fn position_of(code: usize) -> usize
    ensures { result ≡ code % most_leaves }
{
    code % POSITIONS
}

// The row at position p takes those at the positions `near`, besides itself. Where two leaves own the two rows, each leaf gets the other's row:
// their numbers are written from n on. The owners of the active rows stand at the front of `wholes`. Where a pair goes depends on the owners of
// those before it, so that its place is counted. Owners and numbers stay in one list, as they are lent: as two, each function here would take a
// parameter more.
fn send(near: &[usize], p: usize, wholes: &mut [usize], n: usize) -> usize
    requires { (a : ℕ) × PairRoom near.now a p wholes.old n }
    ensures { (result ≡ n + length (pairs_of (λ i. get_or wholes.old i 0) p near.now))
        × (wholes.new ≡ put wholes.old n (pairs_of (λ i. get_or wholes.old i 0) p near.now)) }
{
    let mine = wholes[p];
    let mut end = n;
    for &q in near {
        let other = wholes[q];
        if mine != other {
            wholes[end] = code(mine, q);
            wholes[end + 1] = code(other, p);
            end += 2;
        }
    }
    end
}

// What the row at position p sends. That there are so many neighbours at most is asked here and below: `nearest` asks it of its own room alone.
fn send_row(search: Search<'_>, p: usize, wholes: &mut [usize], n: usize) -> usize
    requires { Searchable search × (search.neighbours ≤ most_neighbours) × (p < length search.active.now) × Owners (length search.active.now) wholes.old
        × (length search.active.now ≤ n) × (n + 2 * search.neighbours ≤ length wholes.old) }
    ensures { TakenBy search.entry p wholes.old wholes.new n result }
{
    let mut positions = [0; NEAREST];
    let mut squares = [0.0; NEAREST];
    let found = search.nearest(search.active[p], &mut positions, &mut squares);
    send(&positions[..found], p, wholes, n)
}

// What all active rows send, behind their owners: the answer is where it ends. They are asked in the order of `positions`, which are those of all
// active rows: what is sent does not depend on it, but rows that lie near each other, asked one after the other, are found sooner.
pub fn collect(search: Search<'_>, positions: &[usize], wholes: &mut [usize]) -> usize
    requires { Searchable search × (search.neighbours ≤ most_neighbours) × Owners (length search.active.now) wholes.old × EachOnce (length search.active.now) positions.now
        × (length search.active.now + length search.active.now * (2 * search.neighbours) ≤ length wholes.old) }
    ensures { CollectedBy search.entry wholes.old (length search.entry.active.now) wholes.new result }
{
    let mut n = search.active.len();
    for &p in positions {
        n = send_row(search, p, wholes, n);
    }
    n
}
