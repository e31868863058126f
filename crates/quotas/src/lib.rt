// The leaves' quotas: how many of its rows each leaf sends up to the next level, by largest remainder.
#![tactic(auto)]

ghost use Rattle.std.specs.Prelude.{◌≡◌, length, take, ℕ, ◌-◌, ◌*◌, ◌≤◌, ◌<◌, MatchOption};
ghost use Rattle.lists.specs.Lists.{total};
ghost use Rattle.definition.specs.Quotas.{size_at, nonempty, leftover, quotas_for};
ghost use Rattle.definition.specs.Refusals.{most_points};
ghost use Rattle.quotas.specs.Answers.{quota_report_lem};
ghost use Rattle.definition.specs.SeatCut.{extra_by};
ghost use Rattle.quotas.specs.Outcome.{SeatsShared};
ghost use Rattle.quotas.specs.Sharing.{Sharing, capacities, remainders_above, RemaindersCut, quotas_by};

use refusal::Refusal;
use rows::MOST_POINTS;

// The leaves that got a quota, and the seats handed out in all.
#[derive(Clone, Copy, Default)]
pub struct Seated {
    pub leaves: usize,
    pub seats: usize,
}

// One sharing: the seats that each nonempty leaf has first, the seats that are then shared, and the capacity that is left for
// these, or 1 where none is left. What relates them to the sizes is asked by each method: the sizes are lent beside them, and not held.
#[derive(Clone, Copy)]
struct Terms {
    first: usize,
    rest: usize,
    pool: usize,
}

impl Terms {
    // The rest times the capacity of a leaf of w rows.
    fn product(self, w: usize) -> usize
        requires { (w ≤ most_points) × (self.rest ≤ most_points) }
        ensures { result ≡ self.rest * (w - self.first) }
    {
        self.rest * w.saturating_sub(self.first)
    }

    // The leftover seats: the rest less each leaf's share, rounded down. A loop, for the reason that `count_above` says.
    fn leftover(self, sizes: &[usize]) -> usize
        requires { Sharing sizes.now self.first self.rest self.pool }
        ensures { result ≡ leftover (capacities sizes.now self.first) self.rest }
    {
        let mut left = self.rest;
        for &w in sizes {
            left -= self.product(w) / self.pool;
        }
        left
    }

    // How many remainders are above t. They are formed anew in each pass, so that no list of them is needed.
    fn count_above(self, sizes: &[usize], t: usize) -> usize
        requires { Sharing sizes.now self.first self.rest self.pool }
        ensures { result ≡ remainders_above (capacities sizes.now self.first) self.rest t }
    {
        let mut many = 0;
        // tried as filter and count: a product asks that its size is within the limit, and a chain does not carry that from the list to its items
        for &w in sizes {
            if t < self.product(w) % self.pool {
                many += 1;
            }
        }
        many
    }

    // The least t with at most `left` remainders above it; none is above the divisor.
    fn cut(self, sizes: &[usize], left: usize) -> usize
        requires { Sharing sizes.now self.first self.rest self.pool }
        ensures { (remainders_above (capacities sizes.now self.first) self.rest result ≤ left) × ((s : ℕ) → s < result → left < remainders_above (capacities sizes.now self.first) self.rest s) }
    {
        bisection::least_passing(self.pool, |t| self.count_above(sizes, t) <= left)
    }

    // Writes each leaf's quota over its size: its first seats, its share rounded down, and its leftover seat by the cut, which
    // `taken` remainders are above. Lower leaves come first, so of equal remainders they get the seats.
    fn hand_out(self, sizes: &mut [usize], left: usize, cut: usize, taken: usize)
        requires { Sharing sizes.old self.first self.rest self.pool × (left ≡ leftover (capacities sizes.old self.first) self.rest) × (taken ≡ remainders_above (capacities sizes.old self.first) self.rest cut) × RemaindersCut (capacities sizes.old self.first) self.rest left cut }
        ensures { sizes.new ≡ quotas_by sizes.old self.first self.rest }
    {
        let mut at_cut = left - taken;
        for w in sizes.iter_mut() {
            let p = self.product(*w);
            let remainder = p % self.pool;
            *w = self.first.min(*w) + p / self.pool + extra_seat(remainder, cut, at_cut);
            at_cut = at_cut.saturating_sub(usize::from(remainder == cut));
        }
    }
}

// 1 if a remainder gets a leftover seat: it is above the cut, or equal to it while seats for these are left.
#[tactic(auto, using(std::proofs::lemmas::Bool::Decides::nat_tests), unfolding(definition::specs::SeatCut::extra_by))]
fn extra_seat(remainder: usize, cut: usize, left: usize) -> usize
    ensures { result ≡ extra_by remainder cut left }
{
    usize::from(cut < remainder || remainder == cut && 0 < left)
}

// The sum of the sizes, none where it is above MOST_POINTS: no sum is formed above that.
fn total_size(sizes: &[usize]) -> Option<usize>
    ensures { MatchOption result (most_points < total sizes.now) (λ rows. (rows ≡ total sizes.now) × (rows ≤ most_points)) }
{
    let mut sum = 0;
    for &w in sizes {
        if MOST_POINTS - sum < w {
            return None;
        }
        sum += w;
    }
    Some(sum)
}

// How many leaves are nonempty.
fn count_nonempty(sizes: &[usize]) -> usize
    ensures { result ≡ nonempty sizes.now }
{
    sizes.iter().filter(|&&w| 0 < w).count()
}

// Hands out the rest by the capacity that remains once each nonempty leaf has `first` seats.
fn deal(sizes: &mut [usize], first: usize, rest: usize, capacity: usize)
    requires { ((j : ℕ) → size_at sizes.old j ≤ most_points) × (first ≤ 1) × (rest ≤ capacity) × (capacity ≤ most_points) × (total (capacities sizes.old first) ≡ capacity) }
    ensures { sizes.new ≡ quotas_by sizes.old first rest }
{
    let terms = Terms {
        first,
        rest,
        pool: capacity.max(1),
    };
    let left = terms.leftover(sizes);
    let cut = terms.cut(sizes, left);
    let taken = terms.count_above(sizes, cut);
    terms.hand_out(sizes, left, cut, taken);
}

// The quotas for s seats, of leaves with `rows` rows in all, in the place of their sizes.
pub fn share_in_place(sizes: &mut [usize], rows: usize, s: usize)
    requires { (rows ≡ total sizes.old) × (rows ≤ most_points) × (s ≤ rows) }
    ensures { sizes.new ≡ quotas_for sizes.old s }
{
    let d = count_nonempty(sizes);
    if d <= s {
        deal(sizes, 1, s - d, rows - d);
    } else {
        deal(sizes, 0, s, rows);
    }
}

// The quotas for `wanted` seats, held to the total. Document 01's refusals come in its order: 8, 11. The sharing works in the
// output alone: of the lent `wholes` only the length is looked at, and nothing is written to it.
#[tactic(auto, using(std::proofs::lemmas::Bool::Decides::nat_tests), unfolding(definition::specs::Outcome::quota_answer, definition::specs::Outcome::quota_output, definition::specs::Refusals::quota_verdict, definition::specs::Refusals::verdict, definition::specs::Refusals::quota_short, definition::specs::Packed::quota_stated, definition::specs::Outcome::number_of, definition::specs::Outcome::place_of, definition::specs::Outcome::value_of, definition::specs::Outcome::list_after, definition::specs::Outcome::RoomAfter))]
pub fn get_domain_coarse_quotas(
    sizes: &[usize],
    wanted: usize,
    quotas: &mut [usize],
    wholes: &mut [usize],
) -> Result<Seated, Refusal>
    ensures { SeatsShared sizes.now wanted quotas.old quotas.new wholes.old wholes.new (quota_report_lem result) }
{
    let Some(rows) = total_size(sizes) else {
        return Err(Refusal::ManyPoints);
    };
    let leaves = sizes.len();
    if quotas.len() < leaves || wholes.len() < leaves {
        return Err(Refusal::ShortList);
    }
    let seats = wanted.min(rows);
    let front = &mut quotas[..leaves];
    stretches::copy_values(front, sizes);
    share_in_place(front, rows, seats);
    Ok(Seated { leaves, seats })
}
