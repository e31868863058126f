// Replays stored vectors of the square root: reads the file that the first argument names, takes the root of each value
// there, and says how many of them are not the stored ones. A line has two patterns of 16 hexadecimal digits, a value
// and its root, with a space between them; no root is the pattern of NaN. tools/make_root_vectors.py makes the file.
#![tactic(auto)]

use std::io;

// The bytes of a line, and the room for a file.
const LINE: usize = 34;

const ROOM: usize = 131072;

// A hexadecimal digit's number; 0 for any other byte. `from_str_radix` would take capitals too, and no other byte.
fn digit(c: u8) -> u64 {
    match c {
        b'0'..=b'9' => (c - b'0') as u64,
        b'a'..=b'f' => (c - b'a') as u64 + 10,
        _ => 0,
    }
}

// The number that these digits say.
fn number(digits: &[u8]) -> u64 {
    digits.iter().fold(0, |x, &c| (x << 4) | digit(c))
}

// Whether the root of the value with the pattern b has the pattern `want`.
fn agrees(b: u64, want: u64) -> bool {
    match root::square_root(bytes_in::float_of(b)) {
        Ok(v) => !v.is_nan() && v.to_bits() == want,
        Err(_) => bytes_in::bits_are_nan(want),
    }
}

// Whether a line holds. `None` says that it has no room for two patterns.
fn line_holds(line: &[u8]) -> Option<bool> {
    let value = number(line.get(..16)?);
    let want = number(line.get(17..33)?);
    Some(agrees(value, want))
}

// How many of the lines of `text` do not hold.
fn differing(text: &[u8]) -> usize {
    text.chunks_exact(LINE)
        .filter(|line| line_holds(line) != Some(true))
        .count()
}

fn main(rt: HostRuntime) -> io::Result<()> {
    let mut file = program_input::open_argument(&rt, 1)?;
    let mut text = program_input::room::<ROOM>();
    let n = program_input::read_count(&mut file, &mut text)?;
    let vectors = n / LINE;
    let differ = differing(&text[..n]);
    println!(rt; "{vectors} vectors, {differ} differ")
}
