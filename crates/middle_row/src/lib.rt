// The middle row of a list of rows, found without sorting them all.
#![tactic(auto)]

ghost use Rattle.std.specs.Prelude.{◌≡◌, ℕ, Bool, true, ◌≤◌, ◌<◌, length};
ghost use Rattle.lists.specs.Ascends.{All};
ghost use Rattle.lists.specs.Lists.{count, keep, put};
ghost use Rattle.rows.specs.Rows.{GoodRows};
ghost use Rattle.points.specs.Columns.{HasRow};
ghost use Rattle.argsort.specs.Rows.{FiniteIn};
ghost use Rattle.middle_row.specs.Middle.{MiddleIn, side_in, Tells, Round, Narrows};

use points::Column;

// How many of the rows come before row p.
fn count_before(column: Column<'_>, rows: &[usize], p: usize) -> usize
    requires { FiniteIn column rows.now × HasRow column p }
    ensures { result ≡ count (side_in column.entry p true) rows.now }
{
    let mut n = 0;
    // by hand: with `filter` and `count` the cut of random points takes up to a fifth longer
    for &r in rows {
        if argsort::comes_before(column, r, p) {
            n += 1;
        }
    }
    n
}

// Moves the rows that pass a test to the front, in their order. The answer is how many they are.
fn keep_front<F: Fn(usize) -> bool>(rows: &mut [usize], passes: F) -> usize
    requires { All (λ i. F.pre passes i) rows.old }
    ensures number { (t : ℕ → Bool) → Tells F.Fn passes t → result ≡ length (keep t rows.old) }
    ensures rows { (t : ℕ → Bool) → Tells F.Fn passes t → rows.new ≡ put rows.old 0 (keep t rows.old) }
{
    let mut n = 0;
    // by the index: what an iterator lends of the rows can't be written beside it, and `retain` is a `Vec`'s
    for t in 0..rows.len() {
        let r = rows[t];
        if passes(r) {
            rows[n] = r;
            n += 1;
        }
    }
    n
}

// Where the search stands: among the first `count` rows of a list, the row is looked for that has `rank` of them before it. A count and no
// slice: the rows stay lent as one list, since what is promised is of the whole of it.
#[derive(Clone, Copy)]
struct Search {
    count: usize,
    rank: usize,
}

// One round of the search for the row with k others before it: the rows on the side of the row at the index `at`, or that row alone where
// it is the one looked for.
fn narrow(column: Column<'_>, rows: &mut [usize], k: usize, at: usize) -> Search
    requires { Round column.points.dimensions column.points.coordinates.now column.axis rows.old k at }
    ensures { Narrows column.entry.points.dimensions column.entry.points.coordinates.now column.entry.axis rows.old k rows.new result.count result.rank }
{
    let p = rows[at];
    let c = count_before(column, rows, p);
    if c == k {
        rows[0] = p;
        return Search { count: 1, rank: 0 };
    }
    if k < c {
        let count = keep_front(rows, |r| argsort::comes_before(column, r, p));
        return Search { count, rank: k };
    }
    let count = keep_front(rows, |r| argsort::comes_before(column, p, r));
    Search {
        count,
        rank: k - c - 1,
    }
}

// The row with half of the rows, rounded down, before it. The list is the room of the search and is left with other content.
// A round takes two comparisons for each row that is left. The first one looks at the row in the middle of the list, which is the
// right one where the coordinates ascend with the rows, and the later ones at rows here and there, so that no usual order of the
// points is a bad one. The rounds look at no more than 8 rows for each row of the list. The rows that are left after them, or 32 of
// them or fewer, are sorted.
pub fn middle(column: Column<'_>, rows: &mut [usize]) -> usize
    requires { (column.axis < column.points.dimensions) × (1 ≤ length rows.old) × GoodRows column.points.dimensions column.points.coordinates.now rows.old }
    ensures { MiddleIn column.entry rows.old result }
{
    let count = rows.len();
    let mut s = Search {
        count,
        rank: count / 2,
    };
    let mut left = 8 * count;
    let mut round = 0;
    // two bounds end it, the rows that are left and those that may still be looked at: no counted loop
    while 32 < s.count && s.count <= left {
        let at = (s.count / 2 + round * 2654435761) % s.count;
        left -= s.count;
        round += 1;
        s = narrow(column, &mut rows[..s.count], s.rank, at);
    }
    argsort::argsort(column, &mut rows[..s.count]);
    rows[s.rank]
}
