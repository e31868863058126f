// Values written to a list or to a stretch of one: given, or counted up.
#![tactic(auto)]

ghost use Rattle.std.specs.Prelude.{◌≡◌, ◌+◌, ◌≤◌, length};
ghost use Rattle.lists.specs.Lists.{put, from};

// Writes the values over a list that has as many. A loop: where both lists are lent from outside, `copy_from_slice` becomes a call of
// `memmove`, a name that the archive for C would need beside `memcpy` and `memset`.
pub fn copy_values<T: Copy>(list: &mut [T], values: &[T])
    requires { length list.old ≡ length values.now }
    ensures len { length list.new ≡ length list.old }
    ensures after { list.new ≡ values.now }
{
    for (i, x) in list.iter_mut().enumerate() {
        *x = values[i];
    }
}

// Writes the values to a list, from `at` on. A list with a place, and no slice to write to: the callers' contracts speak of the whole list,
// and the step from the part that is lent to its list stands here once.
pub fn put_values<T: Copy>(list: &mut [T], at: usize, values: &[T])
    requires { at + length values.now ≤ length list.old }
    ensures { list.new ≡ put list.old at values.now }
{
    copy_values(&mut list[at..at + values.len()], values);
}

// Writes the numbers below `count` to the front of the list. A count and no slice: the callers' contracts speak of the whole list.
pub fn number_rows(wholes: &mut [usize], count: usize)
    requires { count ≤ length wholes.old }
    ensures { wholes.new ≡ put wholes.old 0 (from 0 count) }
{
    for (i, w) in wholes[..count].iter_mut().enumerate() {
        *w = i;
    }
}
