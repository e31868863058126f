// Squared distance and distance, with one fixed sequence of roundings for any number of axes.
ghost use Rattle.std.specs.Prelude.{◌≡◌, length};
ghost use Rattle.definition.specs.Number.{plus, minus, product};
ghost use Rattle.definition.specs.Points.{point_at, distance_sq_lem, rows_sq, rows_apart};
ghost use Rattle.rows.specs.Rows.{Inside};

use points::Points;

// A place inside a leaf.
#[derive(Clone, Copy)]
pub struct LocalIdx(pub usize);

// A row of the point list.
#[derive(Clone, Copy)]
pub struct GlobalIdx(pub usize);

// One axis more of a squared distance: the square of the difference is added to the sum. The gap to a box goes by it too, so that both have the
// same roundings.
pub fn add_square(sum: f64, x: f64, y: f64) -> f64
    ensures { result ≡ plus sum (product (minus x y) (minus x y)) }
{
    let d = x - y;
    sum + d * d
}

// The squared distance of two points, of as many coordinates each.
pub fn distance_sq_between(p: &[f64], q: &[f64]) -> f64
    requires { length p.now ≡ length q.now }
    ensures { result ≡ distance_sq_lem (length p.now) (point_at p.now 0) (point_at q.now 0) }
{
    let mut sum = 0.0;
    // by the index: tried as a zip, whose proof has a pair, but nothing that says that it is the one at the index that the sum has reached
    for k in 0..p.len() {
        sum = add_square(sum, p[k], q[k]);
    }
    sum
}

// The squared distance of two rows.
pub fn distance_sq(points: Points<'_>, i: GlobalIdx, j: GlobalIdx) -> f64
    requires { Inside points.dimensions points.coordinates.now i.0 × Inside points.dimensions points.coordinates.now j.0 }
    ensures { result ≡ rows_sq points.entry.dimensions points.entry.coordinates.now i.0 j.0 }
{
    distance_sq_between(points.point(i.0), points.point(j.0))
}

// The distance of two rows.
pub fn get_distance(points: Points<'_>, i: GlobalIdx, j: GlobalIdx) -> f64
    requires { Inside points.dimensions points.coordinates.now i.0 × Inside points.dimensions points.coordinates.now j.0 }
    ensures { result ≡ rows_apart points.entry.dimensions points.entry.coordinates.now i.0 j.0 }
{
    root::root(distance_sq(points, i, j))
}
