// The call of a load: five lists of the given lengths that hold 9, and their outcome.
#![tactic(auto)]

use call_records::{BORROWED, BOXES, DOMAINS, Fields, NINE, ROWS};
use points::Points;
use tree_lists::TreeLists;

// Whether the load that stands next has the outcome behind it. `None` says that the record is cut, or that a list has more entries than
// there is room for. Settings and points are read as in replay_stores: one function of both would be lent the room, and be longer than the two
// statements that it saves.
pub fn agrees(fields: &mut Fields<'_>) -> Option<bool> {
    let settings = fields.settings()?;
    let mut room = [9.0; call_records::POINTS];
    let points = Points {
        coordinates: fields.list(&mut room)?,
        dimensions: settings.dimensions,
    };
    let lists = TreeLists {
        level_points: &mut [NINE; ROWS],
        internals: &mut [NINE; ROWS],
        domains: &mut [NINE; DOMAINS],
        boxes: &mut [9.0; BOXES],
        borrowed: &mut [NINE; BORROWED],
    };
    let mut lists = fields.lend_lists(lists)?;
    let file = fields.bytes()?;
    let answer = load::load_tree(points, settings.params, file, &mut lists);
    Some(fields.answer_agrees(answer)? && fields.lists_agree(lists.read())? && fields.ended())
}
