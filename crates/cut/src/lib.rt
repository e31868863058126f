// The cut of a domain: its axis, its plane, and its rows in place.
#![tactic(auto)]

ghost use Rattle.std.specs.Prelude.{◌≡◌, ◌≤◌, ◌<◌, length};
ghost use Rattle.lists.specs.Ascends.{All};
ghost use Rattle.definition.specs.Points.{extent};
ghost use Rattle.definition.specs.Cut.{longest_axis_lem, plane};
ghost use Rattle.rows.specs.Rows.{Inside, GoodRows};
ghost use Rattle.halving.specs.Cuts.{halved};

use points::{Column, Points};

// Where a domain is cut: the axis, and the coordinate of the right row that comes first.
#[derive(Clone, Copy)]
pub struct Plane {
    pub axis: usize,
    pub value: f64,
}

// The rounded extent of the rows on one axis.
fn extent_on(column: Column<'_>, rows: &[usize]) -> f64
    requires { (column.axis < column.points.dimensions) × (0 < length rows.now) × All (Inside column.points.dimensions column.points.coordinates.now) rows.now }
    ensures { result ≡ extent column.entry.points.dimensions column.entry.points.coordinates.now rows.now column.entry.axis }
{
    extents::upper_bound(column, rows) - extents::lower_bound(column, rows)
}

// The first axis with the longest extent of the rows. Not by `argmax` of distances, which looks at a list: each extent is asked for once here.
pub fn longest_axis(points: Points<'_>, rows: &[usize]) -> usize
    requires { (0 < points.dimensions) × (0 < length rows.now) × All (Inside points.dimensions points.coordinates.now) rows.now }
    ensures { result ≡ longest_axis_lem points.entry.dimensions points.entry.coordinates.now rows.now }
{
    let mut longest = 0;
    let mut e = extent_on(points.column(0), rows);
    for axis in 1..points.dimensions {
        let v = extent_on(points.column(axis), rows);
        if e < v {
            longest = axis;
            e = v;
        }
    }
    longest
}

// Cuts the rows in place: the left half comes first, then the right half. The room is one whole number for each row; what stood in
// it is lost.
pub fn cut_stretch(points: Points<'_>, rows: &mut [usize], room: &mut [usize]) -> Plane
    requires { (0 < points.dimensions) × (1 ≤ length rows.old) × GoodRows points.dimensions points.coordinates.now rows.old
        × (length room.old ≡ length rows.old) }
    ensures rows { rows.new ≡ halved points.entry.dimensions points.entry.coordinates.now (longest_axis_lem points.entry.dimensions points.entry.coordinates.now rows.old) rows.old }
    ensures room { length room.new ≡ length room.old }
    ensures plane { (result.axis ≡ longest_axis_lem points.entry.dimensions points.entry.coordinates.now rows.old) × (result.value ≡ plane points.entry.dimensions points.entry.coordinates.now rows.old) }
{
    let axis = longest_axis(points, rows);
    let column = points.column(axis);
    let row = halving::halves(column, rows, room);
    let value = column.at(row);
    Plane { axis, value }
}
