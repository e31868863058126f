// The limits of a build: how many points, neighbours, leaves, domains and borrowed rows it may have, and how large a row may be. The facts
// about rows stand in specs and proofs: they are asked clause by clause, since rows are stretches of one list that is cut in place, and a type
// that promised them would be made anew at each cut.
#![tactic(auto)]

ghost use Rattle.std.specs.Prelude.{◌≡◌, ◌+◌, ◌*◌, ◌≤◌};
ghost use Rattle.definition.specs.Packed.{most_rows};
ghost use Rattle.definition.specs.Refusals.{most_points, most_neighbours};

// A build takes at most this many points (the definition's most_points).
pub const MOST_POINTS: usize = 1_048_576;

// Each point has at most this many neighbours (the definition's most_neighbours).
pub const MOST_NEIGHBOURS: u32 = 64;

// A level has at most two leaves for each row.
pub const MOST_LEAVES: usize = 2 * MOST_POINTS;

// Each row is below this number, 2^32: a list that is sorted keeps two rows in an entry.
pub const ROW_LIMIT: usize = 4_294_967_296;

// The most domains of a tree over n points (the definition's most_rows).
pub fn most_domains(n: usize) -> usize
    requires { n ≤ most_points }
    ensures { result ≡ most_rows n }
{
    6 * n + 1
}

// The most rows that the leaves of a tree over n points borrow, with this neighbour count: the length of the list that takes them.
pub fn most_borrowed(n: usize, neighbours: usize) -> usize
    requires { (n ≤ most_points) × (neighbours ≤ most_neighbours) }
    ensures { result ≡ 6 * n * (neighbours + 1) }
{
    let taken = neighbours + 1;
    6 * n * taken
}
