// The rows of a level as two sets, one bit for each row: those that the level lists, and those of them that are left, since no domain so far
// has them.
#![tactic(auto)]

ghost use Rattle.std.specs.Prelude.{◌≡◌, false, ◌*◌, ◌≤◌, ltb, length};
ghost use Rattle.marks.specs.Bits.{Marked};

// The two sets are lists of as many words, lent by the caller.
#[derive(Drop)]
pub struct LevelRows<'a> {
    pub left: &'a mut [usize],
    pub listed: &'a mut [usize],
    pub ghost same_length: { length left.now ≡ length listed.now },
}

impl<'a> LevelRows<'a> {
    // The rows below n as those listed, in words that mark none yet; none is left.
    pub fn below(n: usize, left: &'a mut [usize], listed: &'a mut [usize]) -> LevelRows<'a>
        requires { (length left.old ≡ length listed.old) × Marked listed.old (λ i. false) × (n ≤ 64 * length listed.old) }
        ensures same { (result.left.ghost_name ≡ left.entry.ghost_name) × (length result.left.now ≡ length left.old)
            × (result.listed.ghost_name ≡ listed.entry.ghost_name) × (length result.listed.now ≡ length listed.old) }
        ensures listed { Marked result.listed.now (λ i. ltb i n) }
    {
        marks::mark_below(listed, n);
        LevelRows { left, listed }
    }
}
