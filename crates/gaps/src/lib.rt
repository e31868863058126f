// The gap of a row to a box: its squared distance to the point of the box that is nearest to it, by the steps of a squared distance.
#![tactic(auto)]

ghost use Rattle.std.specs.Prelude.{◌≡◌, ◌≤◌};
ghost use Rattle.definition.specs.Gap.{clamped, row_gap};
ghost use Rattle.rows.specs.Rows.{Inside};
ghost use Rattle.boxes.specs.Boxes.{floats_of};

use boxes::Extents;
use points::Points;

// The value between two bounds that is nearest to x.
#[tactic(auto, unfolding(definition::specs::Gap::clamped))]
fn clamp(lower: f64, upper: f64, x: f64) -> f64
    ensures { result ≡ clamped lower upper x }
{
    if x < lower {
        lower
    } else if upper < x {
        upper
    } else {
        x
    }
}

// The gap of a row to a box. A loop of its own, as the nearest point is clamped axis by axis; the step is that of a squared distance.
pub fn gap_sq(points: Points<'_>, row: usize, whole: Extents) -> f64
    requires { (points.dimensions ≤ 3) × Inside points.dimensions points.coordinates.now row × (whole.dimensions ≡ points.dimensions) }
    ensures { result ≡ row_gap points.entry.dimensions points.entry.coordinates.now (floats_of whole) row }
{
    let mut sum = 0.0;
    // by the axis: it names the coordinate and both bounds
    for axis in 0..points.dimensions {
        let x = points.coordinate(row, axis);
        let nearest = clamp(whole.lower[axis], whole.upper[axis], x);
        sum = distances::add_square(sum, x, nearest);
    }
    sum
}
