// The rows that each leaf of a level borrows from the other leaves.
#![tactic(auto)]

ghost use Rattle.std.specs.Prelude.{◌≡◌, ℕ, ◌+◌, ◌*◌, ◌<◌, ◌≤◌, ◌%◌, length, get_or, take};
ghost use mathlib.Core.List.{List, map, Memᴰ};
ghost use Rattle.lists.specs.Lists.{put, joined};
ghost use Rattle.rows.specs.Rows.{most_leaves, GoodRows};
ghost use Rattle.definition.specs.Refusals.{most_neighbours};
ghost use Rattle.overlap_pairs.specs.Pairs.{Owners, EachOnce, Collected};
ghost use Rattle.sort.specs.Order.{Sorted};
ghost use Rattle.definition.specs.Packed.{row_numbers};
ghost use Rattle.packed.specs.Reading.{read_own};
ghost use Rattle.overlaps.specs.Searched.{LevelFiled};
ghost use Rattle.overlaps.specs.Codes.{codes_from, coded_rows, Distinct, Reached, Positions, Encoded};
ghost use Rattle.overlaps.specs.Borrowed.{borrowed_lists, with_borrowed, Stage, SameBorrowing};

use cut_index::CutIndex;
use overlap_pairs::{code, position_of};
use packed::LevelLeaves;
use points::Points;
use search::Search;

// How many numbers of the index there are at most for each active row: two for each node, of which there are fewer than four a row.
const INDEX: usize = 8;

// The leaves of a level that borrow: their own rows and their domain rows, which are the `count` from number `first` on, and the list that takes
// the borrowed rows, from `at` on. The domain rows are written too, so that they are lent by `&mut`. Whole lists and places, since a domain row
// holds places in the whole list of own rows, and a part of a list in such a value is not covered by the kit's borrow checker.
#[derive(Drop)]
pub struct Borrowing<'a> {
    pub internals: &'a [usize],
    pub domains: &'a mut [usize],
    pub first: usize,
    pub count: usize,
    pub borrowed: &'a mut [usize],
    pub at: usize,
}

impl<'a> Borrowing<'a> {
    // The leaves, only read.
    fn level(&self) -> LevelLeaves<'_>
        ensures { (result.internals.now ≡ self.now.internals.now) × (result.domains.now ≡ self.now.domains.now) × (result.first ≡ self.now.first) × (result.count ≡ self.now.count) }
    {
        LevelLeaves {
            internals: self.internals,
            domains: self.domains,
            first: self.first,
            count: self.count,
        }
    }

    // Writes what the leaves borrow, by the numbers in any order and with repeats: the rows to the list that takes them, and start and
    // count to the domain rows. The answer is how many rows there are.
    fn lend(&mut self, codes: &mut [usize], active: &[usize]) -> usize
        requires { (length active.now ≤ most_leaves) × (self.old.count ≤ most_leaves) × (row_numbers * (self.old.first + self.old.count) ≤ length self.old.domains.now)
            × (self.old.at + length codes.old ≤ length self.old.borrowed.now)
            × ((z : ℕ) → Memᴰ z codes.old → z % most_leaves < length active.now) }
        ensures same { SameBorrowing self.old self.new }
        ensures number { (ls : List (List ℕ)) → Encoded self.old.count (length active.now) codes.old ls → result ≡ length (joined ls) }
        ensures rows { (ls : List (List ℕ)) → Encoded self.old.count (length active.now) codes.old ls
            → self.new.borrowed.now ≡ put self.old.borrowed.now self.old.at (joined (map (map (λ q. get_or active.now q 0)) ls)) }
        ensures columns { (ls : List (List ℕ)) → Encoded self.old.count (length active.now) codes.old ls
            → self.new.domains.now ≡ with_borrowed self.old.at ls self.old.first self.old.domains.now }
        ensures most { result ≤ length codes.old }
    {
        let count = order_once(codes);
        write_rows(&codes[..count], active, self.borrowed, self.at);
        write_columns(
            &codes[..count],
            self.domains,
            self.first,
            self.count,
            self.at,
        );
        count
    }
}

// Moves each number of a list in order, once, to the front. The answer is how many there are. By hand: `dedup` is a `Vec`'s, and nothing here
// is on the heap.
fn drop_repeats(codes: &mut [usize]) -> usize
    requires { Sorted (λ x y. x ≤ y) codes.old }
    ensures { (result ≤ length codes.old) × Distinct codes.old (take result codes.new) }
{
    if codes.is_empty() {
        return 0;
    }
    let mut kept = 1;
    for r in 1..codes.len() {
        if codes[kept - 1] != codes[r] {
            codes[kept] = codes[r];
            kept += 1;
        }
    }
    kept
}

// Writes the row of each number, from `bat` on. This and `write_columns` take the list that they write, and not the whole value: as methods
// they would have to promise that the rest of it stays.
fn write_rows(codes: &[usize], active: &[usize], borrowed: &mut [usize], bat: usize)
    requires { (bat + length codes.now ≤ length borrowed.old) × ((k : ℕ) → k < length codes.now → get_or codes.now k 0 % most_leaves < length active.now) }
    ensures { borrowed.new ≡ put borrowed.old bat (coded_rows active.now codes.now) }
{
    // by the index: tried as a zip with `borrowed.iter_mut()`, of which a proof does not know what was written
    for (k, &c) in codes.iter().enumerate() {
        borrowed[bat + k] = active[position_of(c)];
    }
}

// The first index from `from` on whose number is at least `limit`, or the list's end.
fn reach(codes: &[usize], from: usize, limit: usize) -> usize
    requires { from ≤ length codes.now }
    ensures { Reached codes.now from limit result }
{
    let rest = &codes[from..];
    let passed = rest.iter().position(|&c| limit <= c);
    from + passed.unwrap_or(rest.len())
}

// Writes where the borrowed rows of each leaf start, counted from `bat` on, and how many they are, to the last two columns of the m
// domain rows from `first` on, which are no list of their own. The numbers stand leaf by leaf.
fn write_columns(codes: &[usize], domains: &mut [usize], first: usize, m: usize, bat: usize)
    requires { (m ≤ most_leaves) × (row_numbers * (first + m) ≤ length domains.old) × (bat + length codes.now < 18446744073709551616) }
    ensures { (ls : List (List ℕ)) → Positions m most_leaves ls → codes.now ≡ codes_from 0 ls
        → domains.new ≡ with_borrowed bat ls first domains.old }
{
    let mut start = 0;
    for leaf in 0..m {
        let end = reach(codes, start, code(leaf + 1, 0));
        packed::put_borrowed(domains, first + leaf, bat + start, end - start);
        start = end;
    }
}

// Puts the numbers in order and drops repeats. The answer is how many are left, at the front.
fn order_once(codes: &mut [usize]) -> usize
    ensures { (result ≤ length codes.old) × Distinct codes.old (take result codes.new) }
{
    sort::sort(codes);
    drop_repeats(codes)
}

// What all active rows send, behind their owners, by a search of the level: the answer is where it ends. It is a function of its own, and the lists
// come one by one, since the borrow checker does not cover a struct that is made of references of the maker's own and of others that it was lent.
fn send_all(
    points: Points<'_>,
    neighbours: usize,
    active: &[usize],
    cuts: &[usize],
    planes: &[f64],
    index: &[usize],
    leaves: LevelLeaves<'_>,
    from: usize,
    positions: &[usize],
    wholes: &mut [usize],
) -> usize
    requires level { LevelFiled points.dimensions points.coordinates.now active.now cuts.now planes.now index.now leaves.internals.now leaves.domains.now leaves.first leaves.count from positions.now }
    requires rows { (points.dimensions ≤ 3) × (1 ≤ length active.now) × GoodRows points.dimensions points.coordinates.now active.now × (neighbours ≤ most_neighbours) }
    requires room { Owners (length active.now) wholes.old × EachOnce (length active.now) positions.now × (length active.now + length active.now * (2 * neighbours) ≤ length wholes.old) }
    ensures { Collected points.entry.dimensions points.entry.coordinates.now neighbours active.now wholes.old (length active.now) wholes.new result }
{
    let filed = CutIndex {
        cuts,
        planes,
        index,
        leaves,
        from,
        positions,
    };
    let search = Search {
        points,
        active,
        neighbours,
        filed,
        whole: extents::get_pointarray_extents(points, active),
    };
    overlap_pairs::collect(search, positions, wholes)
}

// The overlap stage of a level. For each active row and each row that it takes with another owner, each owner's leaf borrows the other
// row. The borrowed rows are written leaf by leaf, and each leaf's start and count to the last two columns of its domain row. The answer
// is how many borrowed rows there are. `cuts` and `planes` are the record of the level's cuts, and the leaves' own rows stand from `from` on,
// packed. `wholes` holds the positions of those rows, one a row, the index of the record, eight a row, the owners and, behind them, the numbers. The
// points and the active rows come one by one: in one struct they were tried, and where fine_level lends a stretch of its level points in such a
// struct, the check does not know that they come back as they were.
pub fn overlaps(
    points: Points<'_>,
    neighbours: usize,
    active: &[usize],
    cuts: &[usize],
    planes: &[f64],
    from: usize,
    leaves: &mut Borrowing<'_>,
    wholes: &mut [usize],
) -> usize
    requires stage { (leaf : ℕ) × Stage points.dimensions points.coordinates.now leaf neighbours active.now cuts.now planes.now leaves.old.internals.now leaves.old.domains.now leaves.old.first leaves.old.count from }
    requires neighbours_in_bounds { (10 * length active.now + 2 * length active.now * (neighbours + 1) ≤ length wholes.old)
        × (leaves.old.at + 2 * length active.now * (neighbours + 1) ≤ length leaves.old.borrowed.now) }
    ensures same { SameBorrowing leaves.old leaves.new }
    ensures number { result ≡ length (joined (borrowed_lists points.entry.dimensions points.entry.coordinates.now neighbours active.now (read_own leaves.old.internals.now leaves.old.domains.now leaves.old.first leaves.old.count))) }
    ensures borrowed { leaves.new.borrowed.now
        ≡ put leaves.old.borrowed.now leaves.old.at (joined (borrowed_lists points.entry.dimensions points.entry.coordinates.now neighbours active.now (read_own leaves.old.internals.now leaves.old.domains.now leaves.old.first leaves.old.count))) }
    ensures domains { leaves.new.domains.now
        ≡ with_borrowed leaves.old.at (borrowed_lists points.entry.dimensions points.entry.coordinates.now neighbours active.now (read_own leaves.old.internals.now leaves.old.domains.now leaves.old.first leaves.old.count)) leaves.old.first leaves.old.domains.now }
    ensures most { result ≤ 2 * length active.now * (neighbours + 1) }
{
    let a = active.len();
    let (positions, rest) = wholes.split_at_mut(a);
    let (index, behind) = rest.split_at_mut(INDEX * a);
    let level = leaves.level();
    overlap_owners::owners(active, level, behind, positions);
    cut_index::put_index(cuts, planes, level, from, positions, index);
    let end = send_all(
        points, neighbours, active, cuts, planes, index, level, from, positions, behind,
    );
    leaves.lend(&mut behind[a..end], active)
}
