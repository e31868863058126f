// The stable halves of a list of rows around its middle row.
#![tactic(auto)]

ghost use Rattle.std.specs.Prelude.{◌≡◌, true, not, ◌≤◌, ◌<◌, length};
ghost use Rattle.lists.specs.Lists.{keep, put};
ghost use Rattle.rows.specs.Rows.{GoodRows};
ghost use Rattle.points.specs.Columns.{HasRow};
ghost use Rattle.argsort.specs.Rows.{FiniteIn};
ghost use Rattle.middle_row.specs.Middle.{MiddleIn, side_in};
ghost use Rattle.halving.specs.Cuts.{halved};

use points::Column;

// The middle row of the rows. The search takes place in the room.
fn middle_of(column: Column<'_>, rows: &[usize], room: &mut [usize]) -> usize
    requires { (column.axis < column.points.dimensions) × (1 ≤ length rows.now) × GoodRows column.points.dimensions column.points.coordinates.now rows.now × (length room.old ≡ length rows.now) }
    ensures { MiddleIn column.entry rows.now result }
{
    stretches::copy_values(room, rows);
    middle_row::middle(column, room)
}

// Moves the rows that come before row m to the front, and the others to the room, each in their order. The answer is how many come
// before.
fn part_rows(column: Column<'_>, m: usize, rows: &mut [usize], room: &mut [usize]) -> usize
    requires { (length room.old ≡ length rows.old) × FiniteIn column rows.old × HasRow column m }
    ensures number { result ≡ length (keep (side_in column.entry m true) rows.old) }
    ensures rows { rows.new ≡ put rows.old 0 (keep (side_in column.entry m true) rows.old) }
    ensures room { room.new ≡ put room.old 0 (keep (λ i. not (side_in column.entry m true i)) rows.old) }
{
    let mut lo = 0;
    let mut hi = 0;
    // by the index: what an iterator lends of the rows can't be written beside it
    for i in 0..rows.len() {
        let r = rows[i];
        if argsort::comes_before(column, r, m) {
            rows[lo] = r;
            lo += 1;
        } else {
            room[hi] = r;
            hi += 1;
        }
    }
    lo
}

// Cuts the rows in place, by the coordinate in the column and then by row: the first half of them, rounded down, comes first, and the
// others behind it, each ascending. The room is one whole number for each row: it may hold anything, and is left with other content.
// The answer is the right row that comes first in the cut's order.
pub fn halves(column: Column<'_>, rows: &mut [usize], room: &mut [usize]) -> usize
    requires { (column.axis < column.points.dimensions) × (1 ≤ length rows.old) × GoodRows column.points.dimensions column.points.coordinates.now rows.old
        × (length room.old ≡ length rows.old) }
    ensures rows { rows.new ≡ halved column.entry.points.dimensions column.entry.points.coordinates.now column.entry.axis rows.old }
    ensures room { length room.new ≡ length room.old }
    ensures row { MiddleIn column.entry rows.old result }
{
    let m = middle_of(column, rows, room);
    let lo = part_rows(column, m, rows, room);
    let others = rows.len() - lo;
    stretches::copy_values(&mut rows[lo..], &room[..others]);
    m
}
