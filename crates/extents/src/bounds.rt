// The extents of some rows. Of equal zeros the sign met first stays.
ghost use Rattle.std.specs.Prelude.{◌≡◌, Bool, ◌≤◌, ◌<◌, Float, length};
ghost use Rattle.lists.specs.Ascends.{All};
ghost use Rattle.definition.specs.Points.{lower_bound_lem, upper_bound_lem, extents};
ghost use Rattle.rows.specs.Rows.{Inside};
ghost use Rattle.points.specs.Columns.{column_of};
ghost use Rattle.boxes.specs.Boxes.{floats_of};
ghost use Rattle.extents.specs.Bests.{Decides, best_of};

use boxes::Extents;
use points::{Column, Points};

// The first coordinate of the rows on one axis that no other is better than.
fn bound<F: Fn(f64, f64) -> bool>(column: Column<'_>, rows: &[usize], better: F) -> f64
    requires rows { (column.axis < column.points.dimensions) × (0 < length rows.now) × All (Inside column.points.dimensions column.points.coordinates.now) rows.now }
    requires callable { F.IsAlwaysCallable better }
    ensures { (b : Float → Float → Bool) → Decides F.Fn better b → result ≡ best_of b (column_of column.entry rows.now) }
{
    let mut best = column.at(rows[0]);
    for &row in &rows[1..] {
        let v = column.at(row);
        if better(v, best) {
            best = v;
        }
    }
    best
}

// The least coordinate of the rows on one axis.
pub fn lower_bound(column: Column<'_>, rows: &[usize]) -> f64
    requires { (column.axis < column.points.dimensions) × (0 < length rows.now) × All (Inside column.points.dimensions column.points.coordinates.now) rows.now }
    ensures { result ≡ lower_bound_lem column.entry.points.dimensions column.entry.points.coordinates.now rows.now column.entry.axis }
{
    bound(column, rows, |v, w| v < w)
}

// The greatest coordinate of the rows on one axis.
pub fn upper_bound(column: Column<'_>, rows: &[usize]) -> f64
    requires { (column.axis < column.points.dimensions) × (0 < length rows.now) × All (Inside column.points.dimensions column.points.coordinates.now) rows.now }
    ensures { result ≡ upper_bound_lem column.entry.points.dimensions column.entry.points.coordinates.now rows.now column.entry.axis }
{
    bound(column, rows, |v, w| w < v)
}

// The box of the rows: their least and greatest coordinate on each axis.
pub fn get_pointarray_extents(points: Points<'_>, rows: &[usize]) -> Extents
    requires { (points.dimensions ≤ 3) × (0 < length rows.now) × All (Inside points.dimensions points.coordinates.now) rows.now }
    ensures { (result.dimensions ≡ points.entry.dimensions) × (floats_of result ≡ extents points.entry.dimensions points.entry.coordinates.now rows.now) }
{
    let mut lower = [0.0; 3];
    let mut upper = [0.0; 3];
    // by the axis: it names the column, and both bounds are written at it
    for axis in 0..points.dimensions {
        let column = points.column(axis);
        lower[axis] = lower_bound(column, rows);
        upper[axis] = upper_bound(column, rows);
    }
    Extents {
        lower,
        upper,
        dimensions: points.dimensions,
    }
}
