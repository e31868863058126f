// The least number that passes a test, by halving.
#![tactic(auto)]

ghost use Rattle.std.specs.Prelude.{◌≡◌, ◌<◌, ℕ, Bool};
ghost use Rattle.lists.specs.Lists.{least};
ghost use Rattle.bisection.specs.Tests.{TellsBelow, Stays};

// The least number below `most` that passes a test which all numbers above one that passes pass too, or `most` where none does: no `None`, since
// the definition's `least` is `most` there, and the callers take it for the answer.
pub fn least_passing<F: Fn(usize) -> bool>(most: usize, passes: F) -> usize
    requires { (i : ℕ) → i < most → F.pre passes i }
    ensures { (t : ℕ → Bool) → TellsBelow F.Fn most passes t → Stays most t → result ≡ least t most }
{
    let mut low = 0;
    let mut high = most;
    // a bisection: no counted loop
    while low < high {
        let middle = low + (high - low) / 2;
        if passes(middle) {
            high = middle;
        } else {
            low = middle + 1;
        }
    }
    low
}
