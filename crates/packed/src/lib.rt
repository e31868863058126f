// Domain rows in the lent lists: their strides, and a row read and written. No other crate knows which of a row's numbers says what.
#![tactic(auto)]

ghost use Rattle.std.specs.Prelude.{◌≡◌, ◌+◌, ◌*◌, ◌^◌, ◌≤◌, ◌<◌, length};
ghost use Rattle.definition.specs.Packed.{row_numbers, row_floats_lem};
ghost use Rattle.packed.specs.Reading.{RowFits, read_leaf, own_start, own_count, own_at};
ghost use Rattle.packed.specs.Rows.{plain_row, IsRow, put_row_lem, put_own_lem, put_borrowed_lem};
ghost use Rattle.packed.specs.View.{packed_of, leaf_of};

// How many whole numbers a domain row has.
pub const ROW_NUMBERS: usize = 5;

// Which of them says what. Where the own rows start is the first.
const OWN_COUNT: usize = 1;

const BORROWED_START: usize = 2;

const BORROWED_COUNT: usize = 3;

const DEPTH: usize = 4;

// The floats behind the box: the cover.
pub const COVER: usize = 1;

// How many floats a domain row has on three axes, for lists of a fixed length.
pub const MOST_ROW_FLOATS: usize = boxes::WIDEST_BOX + COVER;

// A domain row: where the leaf's stretch of each list starts, and how many rows it has there; and the leaf's depth.
#[derive(Clone, Copy)]
pub struct DomainRow {
    pub internal_start: usize,
    pub internal_count: usize,
    pub borrowed_start: usize,
    pub borrowed_count: usize,
    pub depth: usize,
}

// A tree's packed lists, as they stand in the lent memory: the leaves' own rows, the domain rows, the boxes with the covers, the
// borrowed rows, and the number of axes. They are passed by value, as `tree: Packed<'_>`. A contract reads them by
// specs/View.antt: `packed_of tree` in a `requires`, `packed_of tree.entry` in an `ensures`, `packed_of l.tree` in an invariant
// and `packed_of c.args.tree` in an answer are the same record that `packed` makes of the five. It is no `TreeRead` of tree_lists: a leaf has no
// level points and needs the axes, and what reads a stored tree cites no lists that a build is lent.
#[derive(Clone, Copy)]
pub struct Packed<'a> {
    pub internals: &'a [usize],
    pub domains: &'a [usize],
    pub boxes: &'a [f64],
    pub borrowed: &'a [usize],
    pub dimensions: usize,
}

// A leaf in the packed lists: its own rows, the rows that it borrows, its box, its cover and its depth. A contract reads it by
// `leaf_of`, as the leaf of the definition.
#[derive(Clone, Copy)]
pub struct Leaf<'a> {
    pub own: &'a [usize],
    pub borrowed: &'a [usize],
    pub bounds: &'a [f64],
    pub cover: f64,
    pub depth: usize,
}

impl<'a> Packed<'a> {
    // The leaf of the domain row number j.
    pub fn leaf(self, j: usize) -> Leaf<'a>
        requires { RowFits (packed_of self) j }
        ensures { leaf_of result ≡ read_leaf (packed_of self.entry) j }
    {
        let row = read_row(self.domains, j);
        let start = floats_before(self.dimensions, j);
        let end = start + boxes::box_width(self.dimensions);
        Leaf {
            own: &self.internals[row.internal_start..row.internal_start + row.internal_count],
            borrowed: &self.borrowed[row.borrowed_start..row.borrowed_start + row.borrowed_count],
            bounds: &self.boxes[start..end],
            cover: self.boxes[end],
            depth: row.depth,
        }
    }
}

// The leaves of one level, as they stand in the lent lists: the leaves' own rows, and the domain rows, of which those of the level are the
// `count` from number `first` on. They are passed by value, as `leaves: LevelLeaves<'_>`: a contract reads their own rows, leaf by leaf, by
// `own_of leaves` in a `requires`, and `own_of leaves.entry` in an `ensures`. The whole list of domain rows with `first` and `count`, and no part
// of it: the rows are written by their number in the whole list (`put_borrowed`), so that reader and writer speak of one number, and of a
// part their count would be a quotient by ROW_NUMBERS.
#[derive(Clone, Copy)]
pub struct LevelLeaves<'a> {
    pub internals: &'a [usize],
    pub domains: &'a [usize],
    pub first: usize,
    pub count: usize,
}

impl<'a> LevelLeaves<'a> {
    // The domain row of the leaf number l of the level.
    pub fn row(self, l: usize) -> DomainRow
        requires { row_numbers * (self.first + l + 1) ≤ length self.domains.now }
        ensures { IsRow result self.entry.domains.now (self.entry.first + l) }
    {
        read_row(self.domains, self.first + l)
    }

    // The own rows of the leaf number l of the level.
    pub fn own(self, l: usize) -> &'a [usize]
        requires { (row_numbers * (self.first + l + 1) ≤ length self.domains.now)
            × (own_start self.domains.now (self.first + l) + own_count self.domains.now (self.first + l) ≤ length self.internals.now) }
        ensures { result.now ≡ own_at self.entry.internals.now self.entry.domains.now (self.entry.first + l) }
    {
        let row = self.row(l);
        &self.internals[row.internal_start..row.internal_start + row.internal_count]
    }
}

// How many floats a domain row has: those of its box, and its cover.
pub fn row_floats(dimensions: usize) -> usize
    requires { dimensions ≤ 3 }
    ensures { result ≡ row_floats_lem dimensions }
{
    boxes::box_width(dimensions) + COVER
}

// How many floats the first k domain rows take up: there the box of the row number k starts, and its cover comes behind that.
pub fn floats_before(dimensions: usize, k: usize) -> usize
    requires { (dimensions ≤ 3) × (row_floats_lem dimensions * k < 2 ^ 64) }
    ensures { result ≡ row_floats_lem dimensions * k }
{
    row_floats(dimensions) * k
}

// The domain row number k, by value. That the list has room for the row is asked here and below: list and number come apart.
pub fn read_row(domains: &[usize], k: usize) -> DomainRow
    requires { row_numbers * (k + 1) ≤ length domains.now }
    ensures { IsRow result domains.now k }
{
    let at = ROW_NUMBERS * k;
    DomainRow {
        internal_start: domains[at],
        internal_count: domains[at + OWN_COUNT],
        borrowed_start: domains[at + BORROWED_START],
        borrowed_count: domains[at + BORROWED_COUNT],
        depth: domains[at + DEPTH],
    }
}

// Writes start and count of the borrowed rows to the domain row number k.
pub fn put_borrowed(domains: &mut [usize], k: usize, start: usize, count: usize)
    requires { row_numbers * (k + 1) ≤ length domains.old }
    ensures { domains.new ≡ put_borrowed_lem domains.old k start count }
{
    stretches::put_values(domains, ROW_NUMBERS * k + BORROWED_START, &[start, count]);
}

// Writes the domain row number k.
pub fn put_row(domains: &mut [usize], k: usize, row: DomainRow)
    requires { row_numbers * (k + 1) ≤ length domains.old }
    ensures { domains.new ≡ put_row_lem domains.old k (plain_row row) }
{
    let numbers = [
        row.internal_start,
        row.internal_count,
        row.borrowed_start,
        row.borrowed_count,
        row.depth,
    ];
    stretches::put_values(domains, ROW_NUMBERS * k, &numbers);
}

// Writes the domain row number k of a leaf that borrows nothing yet: start and count of its own rows, and its depth.
pub fn put_own(domains: &mut [usize], k: usize, start: usize, count: usize, depth: usize)
    requires { row_numbers * (k + 1) ≤ length domains.old }
    ensures { domains.new ≡ put_own_lem domains.old k start count depth }
{
    put_row(
        domains,
        k,
        DomainRow {
            internal_start: start,
            internal_count: count,
            borrowed_start: 0,
            borrowed_count: 0,
            depth,
        },
    );
}
