// The seed of a leaf's sampling: the first row nearest the centroid of its rows.
#![tactic(auto)]

ghost use Rattle.std.specs.Prelude.{◌≡◌, ℕ, ◌<◌, ◌≤◌, length, get_or};
ghost use Rattle.std.specs.Float.{nan};
ghost use Rattle.definition.specs.Sampling.{centroid, seed_of};
ghost use Rattle.rows.specs.Rows.{GoodRows};

use distances::LocalIdx;
use points::{Column, Points};

// The centroid of the rows on one axis: the sum in row order, divided by the count.
fn centroid_axis(column: Column<'_>, rows: &[usize]) -> f64
    requires { GoodRows column.points.dimensions column.points.coordinates.now rows.now × (column.axis < column.points.dimensions) }
    ensures { result ≡ centroid column.entry.points.dimensions column.entry.points.coordinates.now rows.now column.entry.axis }
{
    let mut sum = 0.0;
    for &row in rows {
        sum += column.at(row);
    }
    sum / rows.len() as f64
}

// The centroid of the rows on each axis in use.
fn get_centroid(points: Points<'_>, rows: &[usize]) -> [f64; 3]
    requires { GoodRows points.dimensions points.coordinates.now rows.now × (points.dimensions ≤ 3) }
    ensures { (a : ℕ) → a < points.entry.dimensions → get_or result a nan ≡ centroid points.entry.dimensions points.entry.coordinates.now rows.now a }
{
    let mut center = [0.0; 3];
    // by the axis: it names the column, and the center is written at it
    for axis in 0..points.dimensions {
        center[axis] = centroid_axis(points.column(axis), rows);
    }
    center
}

// The place of the first row nearest the centroid. A root is taken only of a square that is less than all before it: roots
// keep the order of their squares.
pub fn sampling_seed(points: Points<'_>, rows: &[usize]) -> LocalIdx
    requires { GoodRows points.dimensions points.coordinates.now rows.now × (points.dimensions ≤ 3) × (0 < length rows.now) }
    ensures { (result.0 < length rows.now) × (get_or rows.now result.0 0 ≡ seed_of points.entry.dimensions points.entry.coordinates.now rows.now) }
{
    let center = get_centroid(points, rows);
    let center = &center[..points.dimensions];
    let mut best = 0;
    let mut low = f64::INFINITY;
    let mut near = f64::INFINITY;
    for (i, &row) in rows.iter().enumerate() {
        let square = distances::distance_sq_between(center, points.point(row));
        if square < low {
            low = square;
            let apart = root::root(square);
            if apart < near {
                near = apart;
                best = i;
            }
        }
    }
    LocalIdx(best)
}
