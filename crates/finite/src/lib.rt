// The first value of a list that is not finite.
#![tactic(auto)]

ghost use Rattle.std.specs.Prelude.{◌≡◌, ◌<◌, length, MatchOption};
ghost use Rattle.definition.specs.Refusals.{first_bad};

// The position of the first value that is infinite or NaN; none where each is finite.
pub fn first_not_finite(points: &[f64]) -> Option<usize>
    ensures { MatchOption result (first_bad 0 points.now ≡ length points.now) (λ k. (k ≡ first_bad 0 points.now) × (k < length points.now)) }
{
    points.iter().position(|x| !x.is_finite())
}
