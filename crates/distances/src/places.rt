// Where the least and the greatest of some values stand. Of equal values the first wins; 0 where there is none: no `Option`, since these are
// the calls of the reference, whose answer is an index, and the definition's `nearest_row` of no rows is 0.
ghost use Rattle.std.specs.Prelude.{◌≡◌, ◌-◌, Bool, Float, length, get_or};
ghost use Rattle.std.specs.Float.{nan};
ghost use Rattle.lists.specs.Lists.{best, from};
ghost use Rattle.definition.specs.Keys.{keyed, nearest_row, farthest_row};
ghost use Rattle.extents.specs.Bests.{Decides};

// The first place whose value no other is better than.
fn place<F: Fn(f64, f64) -> bool>(values: &[f64], better: F) -> usize
    requires { F.IsAlwaysCallable better }
    ensures { (b : Float → Float → Bool) → Decides F.Fn better b
        → result ≡ best (λ i j. b (get_or values.now i nan) (get_or values.now j nan)) 0 (from 1 (length values.now - 1)) }
{
    let mut best = 0;
    for (i, &value) in values.iter().enumerate() {
        if better(value, values[best]) {
            best = i;
        }
    }
    best
}

// The place of the least value.
pub fn argmin(values: &[f64]) -> usize
    ensures { result ≡ nearest_row (keyed (λ i. get_or values.now i nan) (from 0 (length values.now))) }
{
    place(values, |v, w| v < w)
}

// The place of the greatest value.
pub fn argmax(values: &[f64]) -> usize
    ensures { result ≡ farthest_row (keyed (λ i. get_or values.now i nan) (from 0 (length values.now))) }
{
    place(values, |v, w| w < v)
}
