// The tests of points that several calls share: their number of axes, how many coordinates there are, and that each of these is finite.
#![tactic(auto)]

ghost use Rattle.std.specs.Prelude.{◌≡◌, [], ◌∷◌, ◌/◌, ◌≤◌, IfOk, OnOk};
ghost use Rattle.definition.specs.Refusals.{most_points, on, verdict, wrong_dimension_lem, not_finite_lem};
ghost use Rattle.refusal.specs.Refusals.{verdict_of};
ghost use Rattle.point_checks.specs.Tests.{count_tests};

use refusal::Refusal;
use rows::MOST_POINTS;

// There are one to three axes: 1 where there are not.
#[tactic(auto, unfolding(definition::specs::Refusals::verdict))]
pub fn check_dimension(dimensions: usize) -> Result<(), Refusal>
    ensures number { verdict_of result ≡ verdict (on (wrong_dimension_lem dimensions) 1 ∷ []) }
    ensures fine { OnOk result ((1 ≤ dimensions) × (dimensions ≤ 3)) }
{
    if (1..=3).contains(&dimensions) {
        Ok(())
    } else {
        Err(Refusal::WrongDimension)
    }
}

// The number of points that have `count` coordinates: the first of 6 to 8 whose condition is met.
#[tactic(auto, unfolding(definition::specs::Refusals::verdict))]
pub fn check_count(count: usize, dimensions: usize) -> Result<usize, Refusal>
    requires { 1 ≤ dimensions }
    ensures number { verdict_of result ≡ verdict (count_tests count dimensions) }
    ensures fine { IfOk result (λ n. (n ≡ count / dimensions) × (n ≤ most_points)) }
{
    if count == 0 {
        return Err(Refusal::NoPoints);
    }
    if count % dimensions != 0 {
        return Err(Refusal::MissingCoordinate);
    }
    let n = count / dimensions;
    if MOST_POINTS < n {
        return Err(Refusal::ManyPoints);
    }
    Ok(n)
}

// The coordinates are finite: 10 at the place of the first that is not.
pub fn check_finite(values: &[f64]) -> Result<(), Refusal>
    ensures { verdict_of result ≡ verdict (not_finite_lem values.now ∷ []) }
{
    match finite::first_not_finite(values) {
        Some(position) => Err(Refusal::NotFinite(position)),
        None => Ok(()),
    }
}
