// The level arithmetic of the build: the coarse threshold, the number of reductions, and the size of the next level.
#![tactic(auto)]

ghost use Rattle.std.specs.Prelude.{◌≡◌, ◌≤◌, ◌<◌, ◌^◌};
ghost use Rattle.definition.specs.Levels.{auto, threshold, reductions, exact_size_lem, level_size_lem};
ghost use Rattle.definition.specs.Refusals.{most_points};
ghost use Rattle.definition.specs.Outcome.{size_answer};
ghost use Rattle.config.specs.Params.{threshold_policy};
ghost use Rattle.level_sizes.specs.Answers.{size_report};

use config::SizePolicy;
use refusal::Refusal;
use rows::MOST_POINTS;

// The ceiling of n / 32, held between 512 and 4,096.
fn auto_threshold(n: usize) -> u32
    ensures { result ≡ threshold auto n }
{
    n.div_ceil(32).clamp(512, 4_096) as u32
}

// The coarse threshold c for n points.
pub fn resolved_coarse_threshold(policy: SizePolicy, n: usize) -> u32
    ensures { result ≡ threshold (threshold_policy policy) n }
{
    match policy {
        SizePolicy::Auto => auto_threshold(n),
        SizePolicy::Fixed(c) => c,
    }
}

// The least k with c * f^k at least n, or 4 where three reductions do not do: no `None`, since the definition's `reductions` is 4 there. A product
// is formed only while the last one is below n, so it fits for every c and f of 32 bits.
pub fn get_num_level_reductions(n: usize, c: u32, f: u32) -> u32
    requires { n ≤ most_points }
    ensures { result ≡ reductions n c f }
{
    let mut covered = c as usize;
    for k in 0..4 {
        if n <= covered {
            return k;
        }
        covered *= f as usize;
    }
    4
}

// b^r, for r up to 3. Written out, since the library's `pow` is a loop: with it a level size asked alone took 1.4 times the time at r = 2.
fn power(b: usize, r: u32) -> usize
    requires { (b ≤ most_points) × (r ≤ 3) }
    ensures { result ≡ b ^ r }
{
    match r {
        0 => 1,
        1 => b,
        2 => b * b,
        _ => b * b * b,
    }
}

// The least m with m^r at least c * a^(r-1): no root is taken, so nothing is rounded. The three numbers stay side by side, here
// and below, as document 01's formula has them, and what holds of them is asked of each.
fn exact_size(a: usize, c: usize, r: u32) -> usize
    requires { (a ≤ most_points) × (c < a) × (1 ≤ r) × (r ≤ 3) }
    ensures { result ≡ exact_size_lem a c r }
{
    let goal = c * power(a, r - 1);
    bisection::least_passing(a, |m| goal <= power(m, r))
}

// The size of the next level, of a active rows at the threshold c with r reductions left. The size is at least c, so only the
// upper hold is tried.
pub fn level_size(a: usize, c: usize, r: u32) -> usize
    requires { (a ≤ most_points) × (1 ≤ c) × (c < a) × (1 ≤ r) × (r ≤ 3) }
    ensures { result ≡ level_size_lem a c r }
{
    exact_size(a, c, r).min(a - 1)
}

// The size of the next level, asked alone. Document 01's refusals come in its order: 4, 8, 14, 9.
#[tactic(auto, using(std::proofs::lemmas::Bool::Decides::nat_tests), unfolding(definition::specs::Outcome::size_answer, definition::specs::Refusals::size_verdict, definition::specs::Refusals::verdict, definition::specs::Outcome::number_of, definition::specs::Outcome::place_of, definition::specs::Outcome::value_of))]
pub fn get_num_level_coarse_points(a: usize, c: u32, r: u32) -> Result<usize, Refusal>
    ensures { size_report result ≡ size_answer a c r }
{
    let threshold = c as usize;
    if threshold == 0 {
        return Err(Refusal::ZeroThreshold);
    }
    if MOST_POINTS < a {
        return Err(Refusal::ManyPoints);
    }
    if a <= threshold {
        return Err(Refusal::NotAboveThreshold);
    }
    if r == 0 || 3 < r {
        return Err(Refusal::WrongReductions);
    }
    Ok(level_size(a, threshold, r))
}
