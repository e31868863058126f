// Sets of rows, one bit for each row in a list of words: 16,384 words hold 1,048,576 rows. The functions take the words, and no type of their
// own: which rows are marked is a test that the caller's contract names, and no value holds it.
#![tactic(auto)]

ghost use Rattle.std.specs.Prelude.{◌≡◌, Bool, false, not, ◌&&◌, ◌||◌, ℕ, ◌*◌, ◌≤◌, ◌<◌, eqb, ltb, length};
ghost use Rattle.marks.specs.Bits.{bit_at, marking, unmarking, Marked};

// How many rows a word has.
const WORD: usize = usize::BITS as usize;

// Whether row i is marked; past the words no row is.
pub fn is_marked(words: &[usize], i: usize) -> bool
    ensures { (p : ℕ → Bool) → Marked words.now p → result ≡ p i }
{
    let Some(&word) = words.get(i / WORD) else {
        return false;
    };
    (word >> (i % WORD)) & 1 == 1
}

// Marks row i, which is not marked yet.
pub fn mark(words: &mut [usize], i: usize)
    requires { (i < 64 * length words.old) × (bit_at words.old i ≡ 0) }
    ensures { (words.new ≡ marking words.old i)
        × ((p : ℕ → Bool) → Marked words.old p → Marked words.new (λ j. p j || eqb j i)) }
{
    words[i / WORD] |= 1 << (i % WORD);
}

// Takes the mark of row i away; past the words no row has one.
pub fn unmark(words: &mut [usize], i: usize)
    ensures taken { bit_at words.old i ≡ 1 → words.new ≡ unmarking words.old i }
    ensures set { (p : ℕ → Bool) → Marked words.old p → Marked words.new (λ j. p j && not (eqb j i)) }
{
    if i / WORD < words.len() {
        words[i / WORD] &= !(1 << (i % WORD));
    }
}

// Takes the mark of every row away.
pub fn clear(words: &mut [usize])
    ensures { Marked words.new (λ i. false) }
{
    words.fill(0);
}

// Marks the rows below n, where none is marked yet.
pub fn mark_below(words: &mut [usize], n: usize)
    requires { Marked words.old (λ i. false) × (n ≤ 64 * length words.old) }
    ensures { Marked words.new (λ i. ltb i n) }
{
    for row in 0..n {
        mark(words, row);
    }
}
