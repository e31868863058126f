// A leaf's rows: the stretch of the internal or of the borrowed list that its domain row names, and the test of the row.
#![tactic(auto)]

ghost use Rattle.std.specs.Prelude.{◌≡◌, [], length};
ghost use Rattle.lists.specs.Lists.{part};
ghost use Rattle.definition.specs.Refusals.{stretch_verdict};
ghost use Rattle.definition.specs.Outcome.{count_of, list_of, number_of, row_test_lem, rows_asked, start_of, value_of};
ghost use Rattle.packed.specs.Rows.{plain_row};
ghost use Rattle.refusal.specs.Refusals.{verdict_of};
ghost use Rattle.leaf_rows.specs.Asked.{which_of};

use packed::DomainRow;
use refusal::Refusal;

// What is asked for: a leaf's own rows, or its borrowed rows. An enum with a meaning of its own, matched in one method; both lists, which rows
// and the domain row stay four parameters below, as the public call is asked with them.
#[derive(Clone, Copy)]
pub enum Which {
    Own,
    Borrowed,
}

// The test of a stretch: 12 where it ends past a list of this length. The sum is never formed where it could wrap.
#[tactic(auto, unfolding(definition::specs::Refusals::stretch_verdict, definition::specs::Refusals::verdict))]
pub fn stretch_test(length: usize, start: usize, count: usize) -> Result<(), Refusal>
    ensures { verdict_of result ≡ stretch_verdict start count length }
{
    if length < start || length - start < count {
        return Err(Refusal::StretchPastList);
    }
    Ok(())
}

// The stretch that is asked for: its list, its start and its count. They stand in a row that the caller hands back: nothing says yet that there
// is such a slice.
#[derive(Clone, Copy)]
struct Asked<'a> {
    list: &'a [usize],
    start: usize,
    count: usize,
}

impl<'a> Asked<'a> {
    // Its test: 12 where it ends past its list.
    fn test(self) -> Result<(), Refusal>
        ensures { verdict_of result ≡ stretch_verdict self.entry.start self.entry.count (length self.entry.list.now) }
    {
        stretch_test(self.list.len(), self.start, self.count)
    }

    // That part of the list itself, or an empty one where it ends past the list. It is no `get`: the range's end could wrap, and as two of them,
    // `get(start..)` and `get(..count)`, the bound would stand here a second time beside the test.
    #[tactic(auto, unfolding(definition::specs::Refusals::stretch_verdict, definition::specs::Refusals::verdict, definition::specs::Outcome::value_of, lists::specs::Lists::part))]
    fn rows(self) -> &'a [usize]
        ensures { result.now ≡ value_of (stretch_verdict self.entry.start self.entry.count (length self.entry.list.now)) (part self.entry.list.now self.entry.start self.entry.count) [] }
    {
        let Asked { list, start, count } = self;
        match self.test() {
            Ok(()) => &list[start..start + count],
            Err(_) => &list[..0],
        }
    }
}

impl Which {
    // What it asks of this row.
    fn asked<'a>(self, internals: &'a [usize], borrowed: &'a [usize], row: DomainRow) -> Asked<'a>
        ensures list { result.list.now ≡ list_of (which_of self) internals.now borrowed.now }
        ensures start { result.start ≡ start_of (which_of self) (plain_row row) }
        ensures count { result.count ≡ count_of (which_of self) (plain_row row) }
    {
        match self {
            Which::Own => Asked {
                list: internals,
                start: row.internal_start,
                count: row.internal_count,
            },
            Which::Borrowed => Asked {
                list: borrowed,
                start: row.borrowed_start,
                count: row.borrowed_count,
            },
        }
    }
}

// The rows asked for, in the list where they stand. A row that is refused (12) answers with an empty part.
#[tactic(auto, unfolding(definition::specs::Outcome::rows_asked, definition::specs::Outcome::asked_verdict))]
pub fn rows_of<'a>(
    internals: &'a [usize],
    borrowed: &'a [usize],
    which: Which,
    row: DomainRow,
) -> &'a [usize]
    ensures { result.now ≡ rows_asked (which_of which) (plain_row row) internals.now borrowed.now }
{
    which.asked(internals, borrowed, row).rows()
}

// The test of the row: 12 where the stretch that is asked for ends past its list.
#[tactic(auto, unfolding(definition::specs::Outcome::row_test_lem, definition::specs::Outcome::asked_verdict))]
pub fn row_test(
    internals: &[usize],
    borrowed: &[usize],
    which: Which,
    row: DomainRow,
) -> Result<(), Refusal>
    ensures { number_of (verdict_of result) ≡ row_test_lem (which_of which) (plain_row row) internals.now borrowed.now }
{
    which.asked(internals, borrowed, row).test()
}
