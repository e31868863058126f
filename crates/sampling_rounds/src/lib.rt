// The sampling of a list of rows. In a round each row's least squared distance to the chosen rows is brought up to date,
// and the farthest row is chosen. -1 stands for the square of a chosen row: it is below every squared distance. -1 and no Option: the squares
// stand in lent floats, and a value below them all needs no case of its own.
#![tactic(auto)]

ghost use Rattle.std.specs.Prelude.{◌≡◌, true, ℕ, ◌+◌, ◌<◌, ◌≤◌, length, get_or};
ghost use Rattle.std.specs.Float.{nan};
ghost use Rattle.definition.specs.Sampling.{sample, cover_of};
ghost use Rattle.root_laws.specs.Sorts.{good};
ghost use Rattle.rows.specs.Rows.{GoodRows};
ghost use Rattle.sampling_rounds.specs.Rounds.{lesser, KeptSquare, Peaked, Held, Earliest, Chosen, Worst, Ready, Unchosen, SameSampled, brought};

use distances::{GlobalIdx, LocalIdx};
use points::Points;

// The greatest square of a round, its first place, and a bound of the squares at the places before it.
#[derive(Clone, Copy)]
struct Peak {
    place: usize,
    most: f64,
    second: f64,
}

// The lesser of two values; y where neither is less. `f64::min` is another function: its value differs where one is NaN, and is
// left open where the two are equal.
fn lesser_of(x: f64, y: f64) -> f64
    ensures { result ≡ lesser x y }
{
    if x < y { x } else { y }
}

// The first place up to `best` whose root is not less than that of the square at `best`. Squares up to `low` have lesser
// roots: below a value a little less than the greatest there are none to be rooted.
fn look_back(floats: &[f64], best: usize) -> usize
    requires best_in_bounds { best < length floats.now }
    requires nan_value { good (get_or floats.now best nan) ≡ true }
    requires by_index { (i : ℕ) → i < best → KeptSquare (get_or floats.now i nan) }
    ensures { Earliest (λ i. get_or floats.now i nan) best result }
{
    let most = floats[best];
    let top = root::root(most);
    let near = most * 0.999999999999999;
    let mut low = -1.0;
    if root::root(near) < top {
        low = near;
    }
    for (i, &value) in floats[..best].iter().enumerate() {
        if low < value {
            if root::root(value) < top {
                low = value;
            } else {
                return i;
            }
        }
    }
    best
}

// The first place with the greatest root. Two squares can share one root: where the second square may, the places before
// the greatest are looked through.
fn first_farthest(floats: &[f64], peak: Peak) -> usize
    requires place_in_bounds { (peak.place < length floats.now) × (peak.most ≡ get_or floats.now peak.place nan) }
    requires most_value { good peak.most ≡ true }
    requires by_index { (i : ℕ) → i < peak.place → KeptSquare (get_or floats.now i nan) }
    requires held { Held (λ i. get_or floats.now i nan) peak.place peak.second }
    ensures { Earliest (λ i. get_or floats.now i nan) peak.place result }
{
    let best = peak.place;
    if peak.second < 0.0 {
        return best;
    }
    if root::root(peak.second) < root::root(peak.most) {
        return best;
    }
    look_back(floats, best)
}

// The rows that are sampled, and what is kept for each of them, at the front of `squares`: -1 where the row is chosen, and otherwise its
// least squared distance to the chosen rows.
#[derive(Drop)]
struct Sampled<'a, 'b> {
    points: Points<'a>,
    rows: &'a [usize],
    squares: &'b mut [f64],
}

// That a round can be made (`Ready`) is asked by each that makes one, and is no promise of the type: it asks of the row that was chosen last too,
// and the squares change in a round, so that it would be shown again at the end of each method.
impl<'a, 'b> Sampled<'a, 'b> {
    // Takes the squared distances to the row at `last` into the least ones, and gives the greatest of these.
    fn lessen(&mut self, last: LocalIdx) -> Peak
        requires { Ready self.old last.0 }
        ensures same { SameSampled self.old self.new }
        ensures values { (i : ℕ) → i < length self.old.rows.now → get_or self.new.squares.now i nan ≡ brought self.old last.0 i }
        ensures peak { Peaked (brought self.old last.0) (length self.old.rows.now) result.place result.most result.second }
    {
        // taken out of `self`, where they would be read for each row
        let points = self.points;
        let rows = self.rows;
        let squares: &mut [f64] = self.squares;
        let row = GlobalIdx(rows[last.0]);
        let mut place = 0;
        let mut most = -1.0;
        let mut second = -1.0;
        // the squares by the index: tried as a zip with `squares.iter_mut()`, of which a proof does not know what was written
        for (i, &other) in rows.iter().enumerate() {
            let square = distances::distance_sq(points, row, GlobalIdx(other));
            let value = lesser_of(square, squares[i]);
            squares[i] = value;
            if most < value {
                second = most;
                most = value;
                place = i;
            }
        }
        Peak {
            place,
            most,
            second,
        }
    }

    // One round: brings the least squares up to date and chooses the farthest row.
    fn next_place(&mut self, last: LocalIdx) -> LocalIdx
        requires ready { Ready self.old last.0 }
        requires unchosen { Unchosen self.old }
        ensures same { SameSampled self.old self.new }
        ensures chosen { Chosen (brought self.old last.0) (length self.old.rows.now) result.0 self.new.squares.now }
    {
        let peak = self.lessen(last);
        let squares: &mut [f64] = self.squares;
        let place = first_farthest(squares, peak);
        squares[place] = -1.0;
        LocalIdx(place)
    }

    // The greatest least distance to a chosen row, over the rows that are not chosen: the root of the greatest least square,
    // once the last chosen row is taken in too.
    fn worst_distance(&mut self, last: LocalIdx) -> f64
        requires ready { Ready self.old last.0 }
        requires unchosen { Unchosen self.old }
        ensures same { SameSampled self.old self.new }
        ensures worst { Worst (brought self.old last.0) (length self.old.rows.now) result }
    {
        let square = self.lessen(last).most;
        root::root(square)
    }
}

// Fills `out` with some of the rows: the row at the place `seed`, and then repeatedly the first unchosen row whose least distance to the
// chosen is greatest. Gives their cover: how far the worst left-out row is.
pub fn sample_rows(
    points: Points<'_>,
    rows: &[usize],
    seed: LocalIdx,
    out: &mut [usize],
    floats: &mut [f64],
) -> f64
    requires rows { GoodRows points.dimensions points.coordinates.now rows.now }
    requires wanted { (0 < length out.old) × (length out.old ≤ length rows.now) × (seed.0 < length rows.now) }
    requires room { length rows.now ≤ length floats.old }
    ensures sampled { out.new ≡ sample points.entry.dimensions points.entry.coordinates.now rows.now (length out.old) (get_or rows.now seed.0 0) }
    ensures cover { result ≡ cover_of points.entry.dimensions points.entry.coordinates.now rows.now (sample points.entry.dimensions points.entry.coordinates.now rows.now (length out.old) (get_or rows.now seed.0 0)) }
{
    floats[..rows.len()].fill(f64::INFINITY);
    out[0] = rows[seed.0];
    floats[seed.0] = -1.0;
    let mut sampled = Sampled {
        points,
        rows,
        squares: floats,
    };
    let mut last = seed;
    // by the index: what is said of a round is how many rows are chosen, at the front of the whole list
    for k in 1..out.len() {
        last = sampled.next_place(last);
        out[k] = rows[last.0];
    }
    if out.len() == rows.len() {
        return 0.0;
    }
    sampled.worst_distance(last)
}
