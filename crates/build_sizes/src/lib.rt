// The lengths of the lists that a build is to be lent, and of those that a tree is packed into, for callers who lend them.
#![tactic(auto)]

ghost use Rattle.std.specs.Prelude.{◌≡◌, ◌≤◌};
ghost use Rattle.definition.specs.Packed.{tree_stated, build_stated};
ghost use Rattle.definition.specs.Refusals.{most_points, most_neighbours};
ghost use Rattle.definition.specs.Outcome.{lent_tree, lent_sizes, sizes_answer};
ghost use Rattle.tree_lists.specs.Lent.{lists_in, lists_read, records_in};
ghost use Rattle.build_sizes.specs.Sizes.{tree_sizes_of, sizes_of, tree_lengths_of, lengths_of, sizes_report};

use refusal::Refusal;
use rows::{MOST_NEIGHBOURS, MOST_POINTS};
use tree_lists::{Records, Room, TreeLists, TreeRead};

// The most nodes of a tree's records, for each point.
const NODES: usize = 12;

// The lengths of the five lists of a tree.
#[derive(Clone, Copy, Default)]
pub struct TreeSizes {
    pub level_points: usize,
    pub internals: usize,
    pub domains: usize,
    pub boxes: usize,
    pub borrowed: usize,
}

impl TreeSizes {
    // The lengths of the lists that a caller lends.
    pub fn of(lists: TreeRead<'_>) -> TreeSizes
        ensures { tree_sizes_of result ≡ lent_tree (lists_read lists.entry) }
    {
        TreeSizes {
            level_points: lists.level_points.len(),
            internals: lists.internals.len(),
            domains: lists.domains.len(),
            boxes: lists.boxes.len(),
            borrowed: lists.borrowed.len(),
        }
    }

    // The lengths one after the other: the order in which they are compared.
    pub fn lengths(self) -> [usize; 5]
        ensures { result ≡ tree_lengths_of (tree_sizes_of self) }
    {
        [
            self.level_points,
            self.internals,
            self.domains,
            self.boxes,
            self.borrowed,
        ]
    }
}

// The lengths of the five lists, of the two lists of working room, and of the two lists of the records.
#[derive(Clone, Copy, Default)]
pub struct BuildSizes {
    pub tree: TreeSizes,
    pub floats: usize,
    pub wholes: usize,
    pub cuts: usize,
    pub planes: usize,
}

impl BuildSizes {
    // The lengths of the lists, of the room and of the records that a caller lends.
    pub fn lent(lists: &TreeLists<'_>, room: &Room<'_>, records: &Records<'_>) -> BuildSizes
        ensures { sizes_of result ≡ lent_sizes (lists_in lists.now) room.now.floats.now room.now.wholes.now (records_in records.now) }
    {
        BuildSizes {
            tree: TreeSizes::of(lists.read()),
            floats: room.floats.len(),
            wholes: room.wholes.len(),
            cuts: records.cuts.len(),
            planes: records.planes.len(),
        }
    }

    // The lengths one after the other: the order in which they are told and printed.
    pub fn lengths(self) -> [usize; 9]
        ensures { result ≡ lengths_of (sizes_of self) }
    {
        [
            self.tree.level_points,
            self.tree.internals,
            self.tree.domains,
            self.tree.boxes,
            self.tree.borrowed,
            self.floats,
            self.wholes,
            self.cuts,
            self.planes,
        ]
    }
}

// The lengths of the lists of a tree over n points on `dimensions` axes with this neighbour count.
pub fn tree_sizes(dimensions: usize, n: usize, neighbours: usize) -> TreeSizes
    requires { (dimensions ≤ 3) × (n ≤ most_points) × (neighbours ≤ most_neighbours) }
    ensures { tree_sizes_of result ≡ tree_stated dimensions n neighbours }
{
    let rows = rows::most_domains(n);
    TreeSizes {
        level_points: 4 * n,
        internals: 4 * n,
        domains: packed::ROW_NUMBERS * rows,
        boxes: packed::floats_before(dimensions, rows),
        borrowed: rows::most_borrowed(n, neighbours),
    }
}

// The lengths that a build of it is to be lent: three numbers, as the public call is asked with them. That there are
// so many axes, points and neighbours at most is asked here and wherever they are passed on: the public calls take any and refuse, so that no
// type of theirs can promise it.
#[tactic(auto, unfolding(definition::specs::Packed::build_stated))]
pub fn stated_sizes(dimensions: usize, n: usize, neighbours: usize) -> BuildSizes
    requires { (dimensions ≤ 3) × (n ≤ most_points) × (neighbours ≤ most_neighbours) }
    ensures { sizes_of result ≡ build_stated dimensions n neighbours }
{
    BuildSizes {
        tree: tree_sizes(dimensions, n, neighbours),
        floats: 32 * n,
        wholes: 40 * n + 8 * n * (neighbours + 1),
        cuts: NODES * n,
        planes: NODES * n,
    }
}

// The lengths, asked alone. Refusals in the build's order: 1, 5, 6, 8. The number of points comes as a number and not by its coordinates, so
// that `check_count` does not fit.
#[tactic(auto, unfolding(definition::specs::Outcome::sizes_answer, definition::specs::Outcome::number_of, definition::specs::Outcome::place_of, definition::specs::Outcome::value_of, definition::specs::Refusals::sizes_verdict, definition::specs::Refusals::verdict,))]
pub fn build_sizes(n: usize, dimensions: usize, neighbours: u32) -> Result<BuildSizes, Refusal>
    ensures { sizes_report result ≡ sizes_answer dimensions n neighbours }
{
    point_checks::check_dimension(dimensions)?;
    if MOST_NEIGHBOURS < neighbours {
        return Err(Refusal::ManyNeighbours);
    }
    if n == 0 {
        return Err(Refusal::NoPoints);
    }
    if MOST_POINTS < n {
        return Err(Refusal::ManyPoints);
    }
    Ok(stated_sizes(dimensions, n, neighbours as usize))
}
