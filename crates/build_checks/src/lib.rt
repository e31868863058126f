// The refusals of a build, tried in document 01's order before anything is written.
#![tactic(auto)]

ghost use Rattle.std.specs.Prelude.{◌≡◌, ℕ, false, not, ◌++◌, ◌/◌, ◌%◌, ◌^◌, ◌≤◌, ◌<◌, eqb, IfOk, OnOk};
ghost use Rattle.definition.specs.Packed.{tree_stated, build_stated};
ghost use Rattle.definition.specs.Refusals.{most_points, most_neighbours, verdict, settings_tests, points_tests, zero_threshold_lem, tree_short, build_short, build_verdict};
ghost use Rattle.config.specs.Params.{threshold_policy, settings_of_lem, settings_are};
ghost use Rattle.build_sizes.specs.Sizes.{tree_sizes_of, sizes_of};
ghost use Rattle.refusal.specs.Refusals.{verdict_of};
ghost use Rattle.build_checks.specs.Checked.{Checks};

use build_sizes::{BuildSizes, TreeSizes};
use config::{DDMParams, Settings, SizePolicy};
use points::Points;
use refusal::Refusal;
use rows::MOST_NEIGHBOURS;

// Whether the coarse threshold is fixed at 0.
fn zero_threshold(policy: SizePolicy) -> bool
    ensures { result ≡ zero_threshold_lem (threshold_policy policy) }
{
    matches!(policy, SizePolicy::Fixed(0))
}

// The settings: the first of 1 to 5 whose condition is met.
#[tactic(auto, unfolding(definition::specs::Refusals::verdict))]
pub fn settings_fault(settings: Settings) -> Result<(), Refusal>
    ensures number { verdict_of result ≡ verdict (settings_tests (settings_are settings)) }
    ensures fine { OnOk result ((1 ≤ settings.dimensions) × (settings.dimensions ≤ 3) × (2 ≤ settings.params.coarse_reduction_factor) × (settings.params.overlap_knn ≤ most_neighbours)) }
{
    point_checks::check_dimension(settings.dimensions)?;
    let params = settings.params;
    if params.leaf_threshold == 0 {
        return Err(Refusal::ZeroLeafThreshold);
    }
    if params.coarse_reduction_factor < 2 {
        return Err(Refusal::SmallFactor);
    }
    if zero_threshold(params.coarse_threshold) {
        return Err(Refusal::ZeroThreshold);
    }
    if MOST_NEIGHBOURS < params.overlap_knn {
        return Err(Refusal::ManyNeighbours);
    }
    Ok(())
}

// The points, of `count` coordinates: the first of 6 to 9 whose condition is met; or how many points there are.
pub fn points_fault(count: usize, settings: Settings) -> Result<usize, Refusal>
    requires { (1 ≤ settings.dimensions) × (2 ≤ settings.params.coarse_reduction_factor) }
    ensures number { verdict_of result ≡ verdict (points_tests (settings_are settings) (count / settings.dimensions) (not (eqb (count % settings.dimensions) 0))) }
    ensures fine { IfOk result (λ n. (n ≡ count / settings.dimensions) × (n ≤ most_points)) }
{
    let params = settings.params;
    let n = point_checks::check_count(count, settings.dimensions)?;
    let c = level_sizes::resolved_coarse_threshold(params.coarse_threshold, n);
    if 3 < level_sizes::get_num_level_reductions(n, c, params.coarse_reduction_factor) {
        return Err(Refusal::WrongReductions);
    }
    Ok(n)
}

// Settings and points, of `count` coordinates: the first of 1 to 9 whose condition is met; or how many points there are.
pub fn first_fault(count: usize, settings: Settings) -> Result<usize, Refusal>
    ensures number { verdict_of result ≡ verdict (settings_tests (settings_are settings) ++ points_tests (settings_are settings) (count / settings.dimensions) (not (eqb (count % settings.dimensions) 0))) }
    ensures fine { IfOk result (λ n. (n ≡ count / settings.dimensions) × (n ≤ most_points) × (1 ≤ settings.dimensions) × (settings.dimensions ≤ 3) × (settings.params.overlap_knn ≤ most_neighbours)) }
{
    settings_fault(settings)?;
    points_fault(count, settings)
}

// Settings, and n points of which none lacks a coordinate: the first of 1 to 9 whose condition is met.
pub fn rows_fault(n: usize, settings: Settings) -> Result<(), Refusal>
    requires { n < 2 ^ 32 }
    ensures number { verdict_of result ≡ verdict (settings_tests (settings_are settings) ++ points_tests (settings_are settings) n false) }
    ensures fine { OnOk result ((1 ≤ settings.dimensions) × (settings.dimensions ≤ 3) × (settings.params.overlap_knn ≤ most_neighbours)) }
{
    settings_fault(settings)?;
    points_fault(n * settings.dimensions, settings)?;
    Ok(())
}

// Whether one of the five lists is shorter than a tree over n points on `dimensions` axes with this neighbour count asks for.
pub fn is_tree_short(lent: TreeSizes, dimensions: usize, n: usize, neighbours: usize) -> bool
    requires { (dimensions ≤ 3) × (n ≤ most_points) × (neighbours ≤ most_neighbours) }
    ensures { result ≡ tree_short (tree_sizes_of lent) (tree_stated dimensions n neighbours) }
{
    let lengths = lent.lengths();
    let stated = build_sizes::tree_sizes(dimensions, n, neighbours).lengths();
    lengths
        .iter()
        .zip(stated.iter())
        .any(|(has, asked)| has < asked)
}

// Whether one of these, or of the room or the lists of the records, is shorter than a build of it asks for.
#[tactic(auto, unfolding(definition::specs::Packed::build_stated, definition::specs::Refusals::build_short))]
pub fn is_short(lent: BuildSizes, dimensions: usize, n: usize, neighbours: usize) -> bool
    requires { (dimensions ≤ 3) × (n ≤ most_points) × (neighbours ≤ most_neighbours) }
    ensures { result ≡ build_short (sizes_of lent) (build_stated dimensions n neighbours) }
{
    let stated = build_sizes::stated_sizes(dimensions, n, neighbours);
    is_tree_short(lent.tree, dimensions, n, neighbours)
        || lent.floats < stated.floats
        || lent.wholes < stated.wholes
        || lent.cuts < stated.cuts
        || lent.planes < stated.planes
}

// The tests of a build over all points: `short` answers whether a lent list is shorter than so many points ask for.
pub fn check_points<F: FnOnce(usize) -> bool>(
    points: Points<'_>,
    params: DDMParams,
    short: F,
) -> Result<(), Refusal>
    requires { (n : ℕ) → points.dimensions ≤ 3 → n ≤ most_points → params.overlap_knn ≤ most_neighbours → F.pre short n }
    ensures { Checks (F.post short) (settings_of_lem points.entry.dimensions params) points.entry.coordinates.now (verdict_of result) }
{
    let Points {
        coordinates,
        dimensions,
    } = points;
    let n = first_fault(coordinates.len(), Settings { dimensions, params })?;
    if short(n) {
        return Err(Refusal::ShortList);
    }
    point_checks::check_finite(coordinates)
}

// The tests of a build over all points, with lists of these lengths.
pub fn check_build(points: Points<'_>, params: DDMParams, lent: BuildSizes) -> Result<(), Refusal>
    ensures { verdict_of result ≡ build_verdict (settings_of_lem points.entry.dimensions params) points.entry.coordinates.now (sizes_of lent) }
{
    check_points(points, params, |n| {
        is_short(lent, points.dimensions, n, params.overlap_knn as usize)
    })
}
