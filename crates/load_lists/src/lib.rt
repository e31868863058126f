// The tree that stands in the bytes of a file, written to the fronts of the lists that the caller lends. The records are known to be
// whole, and the lists to be long enough.
#![tactic(auto)]

ghost use Rattle.std.specs.Prelude.{◌≡◌, true, [], ◌∷◌, ◌+◌, ◌*◌, ◌≤◌, length, drop};
ghost use Rattle.lists.specs.Lists.{put};
ghost use Rattle.definition.specs.Packed.{row_floats_lem, most_levels, counts_of, packed_level_points, packed_internals, packed_domains, packed_boxes, packed_borrowed};
ghost use Rattle.formats.specs.Bytes.{float_size, whole};
ghost use Rattle.stored.specs.File.{domain_mark};
ghost use Rattle.stored.specs.Stored.{leaf_size, after_leaves, after_level};
ghost use Rattle.tree_tests.specs.Whole.{leaves_whole, level_whole, levels_whole};
ghost use Rattle.tree_answer.specs.Answers.{counts_given};
ghost use Rattle.file_reader.specs.Fetch.{record_floats_lem};
ghost use Rattle.tree_lists.specs.Lent.{SameLists};
ghost use Rattle.load_lists.specs.Places.{packed_in, floats_read, ahead, domain_at_lem, domains_at, level_at_lem, Room, Written, tree_from, CanHold};

use file_levels::LevelHead;
use file_reader::FileReader;
use tree_answer::{DDMTree, MOST_LEVELS};
use tree_lists::TreeLists;

// Where the next record starts in the file, and where its parts go in the lists: level points, internals, borrowed rows and domain
// row.
#[derive(Clone, Copy)]
struct Cursor {
    pub at: usize,
    pub points: usize,
    pub own: usize,
    pub borrowed: usize,
    pub row: usize,
}

// ---- a domain

// `coarse` stays a flag in these functions: the definition has it as one (`leaf_size dimensions coarse`, `leaf_in dimensions coarse`), and each
// contract would turn an enum back into it. Bytes, place and axes stay side by side, as in file_levels: the place moves on from record to record.

// Writes the floats that stand at `at` in a domain's record to the floats of its row: its box and its cover; before the coarse domain's
// cover +0 for each bound of the box that it does not have.
fn put_row_floats(bytes: &[u8], at: usize, dimensions: usize, coarse: bool, row: &mut [f64])
    requires { (dimensions ≤ 3) × (at + float_size * record_floats_lem dimensions coarse ≤ length bytes.now) × (length row.old ≡ row_floats_lem dimensions) }
    ensures { row.new ≡ floats_read dimensions coarse at bytes.now }
{
    if coarse {
        let width = boxes::box_width(dimensions);
        boxes::put_zeros(row, 0, width);
        bytes_in::read_fields(bytes, at, &mut row[width..width + packed::COVER]);
    } else {
        bytes_in::read_fields(bytes, at, row);
    }
}

// Writes the domain at the cursor: its rows, its domain row and its floats. Answers with the cursor after it.
fn put_domain(
    bytes: &[u8],
    dimensions: usize,
    coarse: bool,
    c: Cursor,
    lists: &mut TreeLists<'_>,
) -> Cursor
    requires dimensions_bound { (dimensions ≤ 3) × (whole domain_mark (leaf_size dimensions coarse (ahead c bytes.now)) (ahead c bytes.now) ≡ true) }
    requires room { Room (domain_at_lem dimensions coarse c bytes.now ∷ []) c (packed_in lists.old dimensions) }
    ensures same { SameLists lists.old lists.new }
    ensures kept { lists.new.level_points.now ≡ lists.old.level_points.now }
    ensures next { (result.at ≡ c.at + leaf_size dimensions coarse (ahead c bytes.now)) × (result.points ≡ c.points) }
    ensures written { Written (domain_at_lem dimensions coarse c bytes.now ∷ []) c result
        (packed_in lists.old dimensions) (packed_in lists.new dimensions) }
{
    let floats = file_reader::record_floats(dimensions, coarse);
    let reader = FileReader { bytes, at: c.at };
    let found = reader.domain(bytes_in::FLOAT * floats).unwrap();
    let depth = bytes_in::number_at(bytes, found.depth_at);
    let own_end = c.own + found.own;
    let borrowed_end = c.borrowed + found.borrowed;
    bytes_in::read_fields(bytes, found.own_at, &mut lists.internals[c.own..own_end]);
    bytes_in::read_fields(
        bytes,
        found.borrowed_at,
        &mut lists.borrowed[c.borrowed..borrowed_end],
    );
    let row = packed::DomainRow {
        internal_start: c.own,
        internal_count: found.own,
        borrowed_start: c.borrowed,
        borrowed_count: found.borrowed,
        depth,
    };
    packed::put_row(lists.domains, c.row, row);
    let box_at = packed::floats_before(dimensions, c.row);
    let box_end = box_at + packed::row_floats(dimensions);
    put_row_floats(
        bytes,
        found.bounds_at,
        dimensions,
        coarse,
        &mut lists.boxes[box_at..box_end],
    );
    Cursor {
        at: found.next,
        points: c.points,
        own: own_end,
        borrowed: borrowed_end,
        row: c.row + 1,
    }
}

// ---- domains one after another

// Writes m domains from the cursor on. Answers with the cursor after them. A number of records, and no slice: each has its own length.
fn put_domains(
    bytes: &[u8],
    dimensions: usize,
    coarse: bool,
    m: usize,
    c: Cursor,
    lists: &mut TreeLists<'_>,
) -> Cursor
    requires dimensions_bound { (dimensions ≤ 3) × (leaves_whole dimensions coarse m (ahead c bytes.now) ≡ true) }
    requires room { Room (domains_at dimensions coarse m c bytes.now) c (packed_in lists.old dimensions) }
    ensures same { SameLists lists.old lists.new }
    ensures kept { lists.new.level_points.now ≡ lists.old.level_points.now }
    ensures next { (ahead result bytes.now ≡ after_leaves dimensions coarse m (ahead c bytes.now)) × (result.points ≡ c.points) }
    ensures written { Written (domains_at dimensions coarse m c bytes.now) c result
        (packed_in lists.old dimensions) (packed_in lists.new dimensions) }
{
    let mut next = c;
    for _ in 0..m {
        next = put_domain(bytes, dimensions, coarse, next, lists);
    }
    next
}

// ---- levels

// Writes the level at the cursor: its rows, and its domains. Answers with the cursor after it.
fn put_level(bytes: &[u8], dimensions: usize, c: Cursor, lists: &mut TreeLists<'_>) -> Cursor
    requires dimensions_bound { (dimensions ≤ 3) × (level_whole dimensions (ahead c bytes.now) ≡ true) }
    requires bytes_in_bounds { (c.points + length (level_at_lem dimensions c bytes.now).points ≤ length lists.old.level_points.now)
        × Room (level_at_lem dimensions c bytes.now).leaves c (packed_in lists.old dimensions) }
    ensures same { SameLists lists.old lists.new }
    ensures next { (ahead result bytes.now ≡ after_level dimensions (ahead c bytes.now)) × (result.points ≡ c.points + length (level_at_lem dimensions c bytes.now).points) }
    ensures level_points { lists.new.level_points.now ≡ put lists.old.level_points.now c.points (level_at_lem dimensions c bytes.now).points }
    ensures written { Written (level_at_lem dimensions c bytes.now).leaves c result
        (packed_in lists.old dimensions) (packed_in lists.new dimensions) }
{
    let head = file_levels::level_at(bytes, c.at).unwrap();
    let LevelHead { rows, domains, .. } = head;
    let end = c.points + rows;
    bytes_in::read_fields(bytes, head.rows_at, &mut lists.level_points[c.points..end]);
    let inside = Cursor {
        at: head.next,
        points: end,
        ..c
    };
    put_domains(bytes, dimensions, domains == 1, domains, inside, lists)
}

// Writes the tree whose levels begin at `at` to the fronts of the lists, and answers with its counts.
pub fn put_levels(bytes: &[u8], at: usize, dimensions: usize, lists: &mut TreeLists<'_>) -> DDMTree
    requires dimensions_bound { (dimensions ≤ 3) × (levels_whole dimensions most_levels (drop at bytes.now) ≡ true) }
    requires can_hold { CanHold (tree_from dimensions at bytes.now) lists.old.level_points.now (packed_in lists.old dimensions) }
    ensures same { SameLists lists.old lists.new }
    ensures counts { counts_given result ≡ counts_of (tree_from dimensions at bytes.now) }
    ensures level_points { lists.new.level_points.now ≡ put lists.old.level_points.now 0 (packed_level_points (tree_from dimensions at bytes.now)) }
    ensures internals { lists.new.internals.now ≡ put lists.old.internals.now 0 (packed_internals (tree_from dimensions at bytes.now)) }
    ensures domains { lists.new.domains.now ≡ put lists.old.domains.now 0 (packed_domains (tree_from dimensions at bytes.now)) }
    ensures boxes { lists.new.boxes.now ≡ put lists.old.boxes.now 0 (packed_boxes (tree_from dimensions at bytes.now)) }
    ensures borrowed { lists.new.borrowed.now ≡ put lists.old.borrowed.now 0 (packed_borrowed (tree_from dimensions at bytes.now)) }
{
    let mut next = Cursor {
        at,
        points: 0,
        own: 0,
        borrowed: 0,
        row: 0,
    };
    let mut levels = 0;
    let mut rows = [0; MOST_LEVELS];
    let mut counts = [0; MOST_LEVELS];
    // by the level, which is also how many there are: both arrays are written at it
    for level in 0..MOST_LEVELS {
        let c = next;
        next = put_level(bytes, dimensions, c, lists);
        let count = next.row - c.row;
        levels = level + 1;
        rows[level] = next.points - c.points;
        counts[level] = count;
        // the coarse level alone has a single domain
        if count == 1 {
            break;
        }
    }
    DDMTree {
        levels,
        rows,
        domains: counts,
    }
}
