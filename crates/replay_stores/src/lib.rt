// The call of a store: five lists of the given lengths with their fronts, a file list that holds 9, and the outcome.
#![tactic(auto)]

use call_records::{BORROWED, BOXES, DOMAINS, Fields, NINE, ROWS};
use points::Points;
use refusal::Refusal;
use tree_answer::DDMTree;
use tree_lists::TreeLists;

// The most entries of a file list in the stored calls.
const FILE: usize = 2000;

// Four counts of eight bytes. `Fields::counts` reads four numbers of four bytes: one function of both would be passed the reading, and be no
// shorter than the four lines.
fn four(fields: &mut Fields<'_>) -> Option<[usize; 4]> {
    Some([
        fields.count()?,
        fields.count()?,
        fields.count()?,
        fields.count()?,
    ])
}

// The counts that are given.
fn counts(fields: &mut Fields<'_>) -> Option<DDMTree> {
    Some(DDMTree {
        levels: fields.count()?,
        rows: four(fields)?,
        domains: four(fields)?,
    })
}

// Whether an answer and the file stand next, and the record ends there.
fn outcome_agrees(
    fields: &mut Fields<'_>,
    answer: Result<usize, Refusal>,
    file: &[u8],
) -> Option<bool> {
    Some(fields.number_agrees(answer)? && fields.agrees(file)? && fields.ended())
}

// Whether the store that stands next has the outcome behind it. `None` says that the record is cut, or that a list has more entries than
// there is room for.
pub fn agrees(fields: &mut Fields<'_>) -> Option<bool> {
    let settings = fields.settings()?;
    let mut room = [9.0; call_records::POINTS];
    let points = Points {
        coordinates: fields.list(&mut room)?,
        dimensions: settings.dimensions,
    };
    let counts = counts(fields)?;
    let lists = TreeLists {
        level_points: &mut [NINE; ROWS],
        internals: &mut [NINE; ROWS],
        domains: &mut [NINE; DOMAINS],
        boxes: &mut [9.0; BOXES],
        borrowed: &mut [NINE; BORROWED],
    };
    let lists = fields.lend_filled_lists(lists)?;
    let mut room = [9u8; FILE];
    let file = fields.lend(&mut room)?;
    let answer = store::store_tree(points, settings.params, counts, lists.read(), file);
    outcome_agrees(fields, answer, file)
}
