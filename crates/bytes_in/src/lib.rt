// Numbers, floats and marks out of a list of bytes.
#![tactic(auto)]

ghost use Rattle.std.specs.Prelude.{◌≡◌, not, ℕ, List, map, ◌+◌, ◌*◌, ◌%◌, ◌^◌, ◌≤◌, ◌<◌, leb, length, drop};
ghost use Rattle.std.specs.Float.Ieee.{of_bits, is_nan};
ghost use Rattle.std.specs.Float.{binary64};
ghost use Rattle.std.specs.Float.Ieee.Scale.{finite};
ghost use Rattle.lists.specs.Lists.{any_of, from};
ghost use Rattle.formats.specs.Bytes.{field, number_at, numbers_at, number_size, float_at, floats_at, float_size, mark_size, whole};
ghost use Rattle.formats.specs.Stream.{point_size_lem};
ghost use Rattle.bytes_in.specs.Each.{numbers-each, floats-each};
ghost use Rattle.bytes_in.specs.Marks.{mark_read};

pub mod marks;

// The bytes of a record's mark, of a number, and of a float.
pub const MARK: usize = 2;

pub const NUMBER: usize = 4;

pub const FLOAT: usize = 8;

// How a level's and a domain's record begin: the mark, and two counts, where each count begins, and how many bytes they are.
pub const FIRST_COUNT: usize = MARK;

pub const SECOND_COUNT: usize = FIRST_COUNT + NUMBER;

pub const COUNTS: usize = SECOND_COUNT + NUMBER;

// The bit of a float's sign, and infinity's bits.
const SIGN: u64 = 0x8000_0000_0000_0000;

const INFINITY: u64 = 0x7ff0_0000_0000_0000;

// ---- one field

// The bytes and a place here, and no slice that begins there: the definition reads `field k at input`, and that so many bytes are left would be
// asked of the slice too. settings_record reads its fields in the same way.

// The number that one byte stands for.
pub fn byte_at(input: &[u8], at: usize) -> usize
    requires { at < length input.now }
    ensures { (result ≡ field 1 at input.now) × (result < 256) }
{
    input[at] as usize
}

// The number in the four bytes from `at` on, the lowest byte first.
pub fn number_at(input: &[u8], at: usize) -> usize
    requires { at + number_size ≤ length input.now }
    ensures { (result ≡ number_at at input.now) × (result < 2 ^ 32) }
{
    u32::from_le_bytes(*input[at..].first_chunk().unwrap()) as usize
}

// The bits in the eight bytes from `at` on, the lowest byte first.
pub fn bits_at(input: &[u8], at: usize) -> u64
    requires { at + float_size ≤ length input.now }
    ensures { result ≡ field float_size at input.now }
{
    u64::from_le_bytes(*input[at..].first_chunk().unwrap())
}

// Whether these are the bits of not-a-number: above infinity's, the sign apart. `f64::is_nan` has no say here: `from_bits` takes no
// pattern of not-a-number.
pub fn bits_are_nan(bits: u64) -> bool
    ensures { result ≡ is_nan (of_bits binary64 bits) }
{
    INFINITY < bits % SIGN
}

// The float with these bits; every pattern of not-a-number is the one value, since `from_bits` takes none.
pub fn float_of(bits: u64) -> f64
    ensures { result ≡ of_bits binary64 bits }
{
    if bits_are_nan(bits) {
        f64::NAN
    } else {
        f64::from_bits(bits)
    }
}

// The float whose bits are the eight bytes from `at` on.
pub fn float_at(input: &[u8], at: usize) -> f64
    requires { at + float_size ≤ length input.now }
    ensures { result ≡ float_at at input.now }
{
    float_of(bits_at(input, at))
}

// Whether a record that begins with this mark and has `size` bytes in all stands whole at `at`.
pub fn record_at(input: &[u8], at: usize, size: usize, mark: [u8; MARK]) -> bool
    requires { (at ≤ length input.now) × (mark_size ≤ size) }
    ensures { result ≡ whole (mark_read mark) size (drop at input.now) }
{
    size <= input.len() - at && input[at..].starts_with(&mark)
}

// The bytes of a point's record on so many axes: the mark's, and a float for each axis.
pub fn point_size(dimensions: usize) -> usize
    requires { dimensions ≤ 3 }
    ensures { result ≡ point_size_lem dimensions }
{
    MARK + FLOAT * dimensions
}

// ---- fields one after the other

// What stands in records with a fixed number of bytes: numbers, and floats.
pub trait Field: Copy {
    ghost SIZE: { ℕ };

    // The value in the bytes from a place on, and so many of them.
    ghost read: { ℕ → List ℕ → Self };

    ghost read_all: { ℕ → ℕ → List ℕ → List Self };

    const SIZE: usize;

    fn read_at(input: &[u8], at: usize) -> Self
        requires { at + SIZE ≤ length input.now }
        ensures { result ≡ read at input.now };

    ghost each: { (n at : ℕ) (bs : List ℕ) → read_all n at bs ≡ map (λ i. read (at + SIZE * i) bs) (from 0 n) };
}

impl Field for usize {
    ghost SIZE = { number_size };

    ghost read = { number_at };

    ghost read_all = { numbers_at };

    ghost each = { numbers-each };

    const SIZE: usize = NUMBER;

    fn read_at(input: &[u8], at: usize) -> usize {
        number_at(input, at)
    }
}

impl Field for f64 {
    ghost SIZE = { float_size };

    ghost read = { float_at };

    ghost read_all = { floats_at };

    ghost each = { floats-each };

    const SIZE: usize = FLOAT;

    fn read_at(input: &[u8], at: usize) -> f64 {
        float_at(input, at)
    }
}

// Reads the numbers or floats that stand from `at` on, as many as `out` has places.
pub fn read_fields<T: Field>(input: &[u8], at: usize, out: &mut [T])
    requires { at + T.SIZE * length out.old ≤ length input.now }
    ensures { out.new ≡ T.read_all (length out.old) at input.now }
{
    for (i, x) in out.iter_mut().enumerate() {
        *x = T::read_at(input, at + T::SIZE * i);
    }
}

// A place and a count, here and below, as the definition has them (`floats_at count at`): each contract would turn a slice of the bytes
// back into them.

// Whether each of `count` floats from `at` on has bits below `limit`, the sign apart.
fn bits_below(limit: u64, input: &[u8], at: usize, count: usize) -> bool
    requires { at + float_size * count ≤ length input.now }
    ensures { result ≡ not (any_of (λ i. leb limit (field float_size (at + float_size * i) input.now % 0x8000_0000_0000_0000)) (from 0 count)) }
{
    for i in 0..count {
        let bits = bits_at(input, at + FLOAT * i);
        if limit <= bits % SIGN {
            return false;
        }
    }
    true
}

// Whether none of `count` floats from `at` on is not-a-number.
pub fn no_nan_at(input: &[u8], at: usize, count: usize) -> bool
    requires { at + float_size * count ≤ length input.now }
    ensures { result ≡ not (any_of is_nan (floats_at count at input.now)) }
{
    bits_below(INFINITY + 1, input, at, count)
}

// Whether each of `count` floats from `at` on is finite.
pub fn finite_at(input: &[u8], at: usize, count: usize) -> bool
    requires { at + float_size * count ≤ length input.now }
    ensures { result ≡ not (any_of (λ x. not (finite x)) (floats_at count at input.now)) }
{
    bits_below(INFINITY, input, at, count)
}
