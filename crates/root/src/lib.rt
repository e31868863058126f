// Numbers: the square root of an f64, rounded to the nearest value as IEEE 754 asks.
#![tactic(auto)]

ghost use Rattle.std.specs.Prelude.{◌≡◌, ◌+◌, ◌*◌, ◌/◌, ◌^◌, ◌≤◌, ◌<◌, leb};
ghost use Rattle.definition.specs.Number.{square_root_lem};
ghost use Rattle.definition.specs.Outcome.{root_answer};
ghost use Rattle.root_laws.specs.Steps.{Leading, NearRoot, RootBits};
ghost use Rattle.root.specs.Answers.{root_report};

use refusal::Refusal;

// A pattern of a finite value is a `u64` below infinity's, which three inner functions ask for. It is no type of its own: that would be made at
// three places (a root's argument, and the two guesses, each a significand and a constant) and handed on at one, from root_bits to leading.

// A significand m with its leading digit at bit 52, and an exponent.
#[derive(Clone, Copy)]
struct Lead {
    m: u64,
    e: u64,
}

// The upper 64 bits of u * v.
fn upper(u: u64, v: u64) -> u64
    ensures { result ≡ u * v / 2 ^ 64 }
{
    ((u as u128 * v as u128) >> 64) as u64
}

// Whether q * (q + 1) is at least n * 2^52. Both factors are scaled by 2^6, so that the product's upper half decides.
fn enough(n: u64, q: u64) -> bool
    requires { q < 2 ^ 53 }
    ensures { result ≡ leb (n * 2 ^ 52) (q * q + q) }
{
    n <= upper(q * 64, q * 64 + 64)
}

// A number from lo up and below hi: while k is not 0 the one nearest to p, else the middle.
fn pick(lo: u64, hi: u64, p: u64, k: u64) -> u64
    requires { lo < hi }
    ensures { (lo ≤ result) × (result < hi) }
{
    if k == 0 {
        lo + (hi - lo) / 2
    } else {
        p.clamp(lo, hi - 1)
    }
}

// The number nearest to the root of n * 2^52. The guess g speeds the search, and nothing is asked of it:
// the first four probes go by it, and the others halve what is left.
fn near_root(n: u64, g: u64) -> u64
    requires { (2 ^ 52 ≤ n) × (n + 2 ≤ 2 ^ 54) }
    ensures { NearRoot (n * 2 ^ 52) result }
{
    let mut lo: u64 = 0x0010_0000_0000_0000;
    let mut hi: u64 = 0x001f_ffff_ffff_ffff;
    let mut p = g;
    let mut k: u64 = 4;
    // a bisection: no counted loop
    while lo < hi {
        let mid = pick(lo, hi, p, k);
        k = k.saturating_sub(1);
        if enough(n, mid) {
            hi = mid;
            p = mid - 1;
        } else {
            lo = mid + 1;
            p = mid + 1;
        }
    }
    lo
}

// A guess at the root of the f64 with the pattern b, from 1 up and below 4, as a significand:
// Newton's method on 1 / root.
fn guess(b: u64) -> u64
    requires { b < 2047 * 2 ^ 52 }
{
    let f = f64::from_bits(b);
    let h = f * 0.5;
    let mut y = f64::from_bits(0x5fe6_eb50_c7b5_37a9 - (b >> 1));
    for _ in 0..3 {
        y *= 1.5 - h * y * y;
    }
    let z = f * y;
    let w = z + 0.5 * y * (f - z * z);
    if w.is_nan() {
        return 0;
    }
    w.to_bits().saturating_sub(0x3fe0_0000_0000_0000)
}

// The significand and the exponent of the finite value above zero with the pattern b: in units of 2^-2148 it is m * 2^e.
fn leading(b: u64) -> Lead
    requires { (0 < b) × (b < 2047 * 2 ^ 52) }
    ensures { Leading b result.m result.e }
{
    let t = b & 0x000f_ffff_ffff_ffff;
    let x = b >> 52;
    if x == 0 {
        let z = t.leading_zeros() - 11;
        return Lead {
            m: t << z,
            e: 1074 - z as u64,
        };
    }
    Lead {
        m: t + 0x0010_0000_0000_0000,
        e: x + 1073,
    }
}

// The pattern of the root of the finite value above zero with the pattern b. The exponent is halved, and an odd one
// leaves a factor 2 for the significand.
fn root_bits(b: u64) -> u64
    requires { (0 < b) × (b < 2047 * 2 ^ 52) }
    ensures { RootBits b result }
{
    let Lead { m, e } = leading(b);
    let q = if e % 2 == 1 {
        near_root(m * 2, guess(m + 0x3ff0_0000_0000_0000))
    } else {
        near_root(m, guess(m + 0x3fe0_0000_0000_0000))
    };
    (e / 2 - 26) * 0x0010_0000_0000_0000 + q
}

// The root of any x: NaN for NaN and for a number below zero.
pub fn root(x: f64) -> f64
    ensures { result ≡ square_root_lem x }
{
    if x < 0.0 || x.is_nan() {
        return f64::NAN;
    }
    if x == 0.0 || x == f64::INFINITY {
        return x;
    }
    f64::from_bits(root_bits(x.to_bits()))
}

// The root of x, with the refusal: NaN and the numbers below zero have none.
#[tactic(auto, unfolding(definition::specs::Outcome::root_answer, definition::specs::Refusals::root_verdict, definition::specs::Refusals::verdict, definition::specs::Outcome::number_of, definition::specs::Outcome::place_of, definition::specs::Outcome::value_of))]
pub fn square_root(x: f64) -> Result<f64, Refusal>
    ensures { root_report result ≡ root_answer x }
{
    if x.is_nan() || x < 0.0 {
        return Err(Refusal::NoRoot);
    }
    Ok(root(x))
}
