// The levels of a stored tree, tested one after the other in the caller's bytes: each level's record, its rows among those of the level
// above, and its domains. The rows go along, those of the level above and then of the level itself, and those that no domain so far has.
#![tactic(auto)]

ghost use Rattle.std.specs.Prelude.{◌≡◌, Bool, ◌&&◌, ℕ, ◌≤◌, ltb, length, drop};
ghost use Rattle.definition.specs.Tree.{Settings};
ghost use Rattle.definition.specs.Packed.{most_levels};
ghost use Rattle.definition.specs.Refusals.{most_points, most_neighbours};
ghost use Rattle.stored.specs.Sound.{sound};
ghost use Rattle.stored.specs.Stored.{levels_at};
ghost use Rattle.tree_tests.specs.Whole.{levels_whole};
ghost use Rattle.marks.specs.Bits.{Marked};
ghost use Rattle.row_sets.specs.Lent.{SameSets};
ghost use Rattle.file_levels.specs.Levels.{IsHead, LevelPassedIs, TreePassedIs};

use bytes_in::{COUNTS, marks};
use file_reader::FileReader;
use file_rows::FileRows;
use leaf_depths::LeafLevel;
use row_sets::{LevelRows, WORDS};
use tree_answer::MOST_LEVELS;

// A whole level record: its counts, and where its rows and its domains begin.
#[derive(Clone, Copy)]
pub struct LevelHead {
    pub rows: usize,
    pub domains: usize,
    pub rows_at: usize,
    pub next: usize,
}

// A level that passes: where what comes after it starts, and how many rows, domains and borrowed rows it has.
#[derive(Clone, Copy)]
pub struct LevelPassed {
    pub next: usize,
    pub rows: usize,
    pub domains: usize,
    pub borrowed: usize,
}

// Levels that pass: how many domains and borrowed rows they have.
#[derive(Clone, Copy)]
pub struct TreePassed {
    pub domains: usize,
    pub borrowed: usize,
}

// The level record at a place, where one stands there whole.
pub fn level_at(bytes: &[u8], at: usize) -> Option<LevelHead>
    requires { at ≤ length bytes.now }
    ensures { IsHead (drop at bytes.now) at result }
{
    let (rows, domains) = FileReader { bytes, at }.counts(marks::LEVEL)?;
    let size = COUNTS + bytes_in::NUMBER * rows;
    if bytes.len() - at < size {
        return None;
    }
    Some(LevelHead {
        rows,
        domains,
        rows_at: at + COUNTS,
        next: at + size,
    })
}

// Bytes, place and axes stay side by side, here and in file_domains and load_lists: the place moves on from record to record, and the places in a
// record (`Fetched`) are places in the whole file. That a place lies within the bytes is asked of each: `FileReader` takes any place and refuses,
// and a type that promised it would ask more.

// Whether the level at a place stands there whole, has at least `least` and fewer than `below` rows, and passes against the listed rows of
// the level above. Where it does, its rows are the listed ones. What list_levels does alike are the calls of `narrow` and of `check_domains`: there
// the counts are given, and stand in no record.
pub fn check_level(
    bytes: &[u8],
    at: usize,
    dimensions: usize,
    least: usize,
    below: usize,
    sets: &mut LevelRows<'_>,
) -> Option<LevelPassed>
    requires { (dimensions ≤ 3) × (at ≤ length bytes.now) }
    ensures same { SameSets sets.old sets.new }
    ensures tested { (p : ℕ → Bool) → Marked sets.old.listed.now p
        → LevelPassedIs bytes.now at dimensions least below p sets.new.listed.now result }
{
    let h = level_at(bytes, at)?;
    if h.rows < least || below <= h.rows {
        return None;
    }
    let rows = FileRows {
        bytes,
        at: h.rows_at,
        count: h.rows,
    };
    if !sets.narrow(&rows) {
        return None;
    }
    let level = LeafLevel {
        rows: h.rows,
        coarse: h.domains == 1,
    };
    let r = file_domains::check_domains(bytes, h.next, h.domains, dimensions, level, sets)?;
    Some(LevelPassed {
        next: r.next,
        rows: h.rows,
        domains: h.domains,
        borrowed: r.borrowed,
    })
}

// The loop is not the one of list_levels: there the counts are given, and three starts in the lists go on; here each record tells its own.

// Whether the levels from a place on pass: the first one has the n listed rows, each next one some of those above, but not all of them,
// and the first level with one domain is the last, at most the fourth, with nothing after it.
pub fn check_levels(
    bytes: &[u8],
    at: usize,
    dimensions: usize,
    n: usize,
    sets: &mut LevelRows<'_>,
) -> Option<TreePassed>
    requires { (dimensions ≤ 3) × (n ≤ most_points) × (at ≤ length bytes.now) × Marked sets.old.listed.now (λ i. ltb i n) }
    ensures same { SameSets sets.old sets.new }
    ensures tested { TreePassedIs bytes.now at dimensions n result }
{
    let mut place = at;
    let mut least = n;
    let mut below = n + 1;
    let mut domains = 0;
    let mut borrowed = 0;
    for _i in 0..MOST_LEVELS {
        let l = check_level(bytes, place, dimensions, least, below, sets)?;
        place = l.next;
        domains += l.domains;
        borrowed += l.borrowed;
        if l.domains == 1 {
            if place != bytes.len() {
                return None;
            }
            return Some(TreePassed { domains, borrowed });
        }
        least = 1;
        below = l.rows;
    }
    None
}

// Whether the levels of a tree over n points stand from a place on to the end of the bytes and are sound, for settings with this dimension
// and neighbour count.
pub fn check_tree(bytes: &[u8], at: usize, dimensions: usize, n: usize, neighbours: usize) -> bool
    requires { (dimensions ≤ 3) × (n ≤ most_points) × (neighbours ≤ most_neighbours) × (at ≤ length bytes.now) }
    ensures { (s : Settings) → s.dimension ≡ dimensions → s.neighbours ≡ neighbours
        → result ≡ levels_whole dimensions most_levels (drop at bytes.now) && sound s n (levels_at dimensions most_levels (drop at bytes.now)) }
{
    let mut left = [0; WORDS];
    let mut listed = [0; WORDS];
    let mut sets = LevelRows::below(n, &mut left, &mut listed);
    let Some(t) = check_levels(bytes, at, dimensions, n, &mut sets) else {
        return false;
    };
    t.domains <= rows::most_domains(n) && t.borrowed <= rows::most_borrowed(n, neighbours)
}
