// The public call of sampling: its refusals, and the sampling of all rows of a point list.
#![tactic(auto)]

ghost use Rattle.std.specs.Prelude.{◌≡◌, ◌||◌, ◌≤◌, eqb, ltb, leb, IfOk};
ghost use Rattle.refusal.specs.Refusals.{verdict_of};
ghost use Rattle.definition.specs.Tree.{point_count};
ghost use Rattle.definition.specs.Packed.{sample_stated};
ghost use Rattle.definition.specs.Refusals.{most_points, sample_short, sample_verdict};
ghost use Rattle.sampling.specs.Answers.{sample_lent, sample_report_lem};
ghost use Rattle.sampling.specs.Outcome.{RowsSampled};
ghost use Rattle.tree_lists.specs.Lent.{SameRoom};

use distances::LocalIdx;
use points::Points;
use refusal::Refusal;
use tree_lists::Room;

// The count of rows written, and their cover.
#[derive(Clone, Copy, Default)]
pub struct Sampled {
    pub rows: usize,
    pub cover: f64,
}

// The lengths of the lent lists.
#[derive(Clone, Copy)]
struct Lent {
    output: usize,
    floats: usize,
    wholes: usize,
}

// Whether none is wanted, more than there are, or the seed is no row.
fn wrong_choice(rows: usize, wanted: usize, seed: usize) -> bool
    ensures { result ≡ (eqb wanted 0 || ltb rows wanted || leb rows seed) }
{
    wanted == 0 || rows < wanted || rows <= seed
}

// Whether a lent list is shorter than stated.
#[tactic(auto, unfolding(definition::specs::Refusals::sample_short, definition::specs::Packed::sample_stated))]
fn lists_short(rows: usize, wanted: usize, lent: Lent) -> bool
    requires { rows ≤ most_points }
    ensures { result ≡ sample_short (sample_lent lent.output lent.floats lent.wholes) (sample_stated rows wanted) }
{
    lent.output < wanted || lent.floats < 2 * rows || lent.wholes < rows
}

// The tests of a sampling, in their order; and how many rows there are to sample.
#[tactic(auto, unfolding(definition::specs::Refusals::sample_verdict, definition::specs::Refusals::verdict))]
fn sampling_verdict(
    points: Points<'_>,
    wanted: usize,
    seed: usize,
    lent: Lent,
) -> Result<usize, Refusal>
    ensures number { verdict_of result ≡ sample_verdict points.entry.dimensions points.entry.coordinates.now wanted seed (sample_lent lent.output lent.floats lent.wholes) }
    ensures rows { IfOk result (λ rows. rows ≡ point_count points.entry.dimensions points.entry.coordinates.now) }
{
    point_checks::check_dimension(points.dimensions)?;
    let rows = point_checks::check_count(points.coordinates.len(), points.dimensions)?;
    if wrong_choice(rows, wanted, seed) {
        return Err(Refusal::WrongChoice);
    }
    if lists_short(rows, wanted, lent) {
        return Err(Refusal::ShortList);
    }
    point_checks::check_finite(points.coordinates)?;
    Ok(rows)
}

// Farthest point sampling of all rows, from the row `seed` on: `wanted` rows are written to the front of `out`. The cover
// is how far the worst left-out row is from its nearest chosen one. The working room, 2 floats and 1 whole number per row, is
// left free but for its length. A refusal writes to no list. Points, number and seed are what document 01 has it called with.
pub fn farthest_point_sampling(
    points: Points<'_>,
    wanted: usize,
    seed: usize,
    out: &mut [usize],
    room: &mut Room<'_>,
) -> Result<Sampled, Refusal>
    ensures sampled { RowsSampled points.entry.dimensions points.entry.coordinates.now wanted seed out.old out.new
        room.old.floats.now room.new.floats.now room.old.wholes.now room.new.wholes.now (sample_report_lem result) }
    ensures same { SameRoom room.old room.new }
{
    let lent = Lent {
        output: out.len(),
        floats: room.floats.len(),
        wholes: room.wholes.len(),
    };
    let rows = sampling_verdict(points, wanted, seed, lent)?;
    let wholes: &mut [usize] = room.wholes;
    stretches::number_rows(wholes, rows);
    let all: &mut [usize] = &mut wholes[..rows];
    let cover = sampling_rounds::sample_rows(
        points,
        all,
        LocalIdx(seed),
        &mut out[..wanted],
        room.floats,
    );
    Ok(Sampled {
        rows: wanted,
        cover,
    })
}
