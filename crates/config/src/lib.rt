// The settings of a build (config.rs of the Rust), by value.
#![tactic(auto)]

ghost use Rattle.std.specs.Prelude.{◌≡◌};
ghost use Rattle.definition.specs.Levels.{policy_from};
ghost use Rattle.config.specs.Params.{threshold_policy};

// How the coarse threshold is set. It is an enum of its own, and no `Option<u32>`: document 01 and the Rust name its two cases, and the first of
// them sets a threshold too, by the number of points.
#[derive(Clone, Copy)]
pub enum SizePolicy {
    Auto,
    Fixed(u32),
}

impl SizePolicy {
    // The policy that stands for a number, with its threshold: 0 is Auto, any other number Fixed. It is no `From` of a pair, which would not say
    // which of its numbers is which.
    pub fn of(kind: usize, threshold: u32) -> SizePolicy
        ensures { threshold_policy result ≡ policy_from kind threshold }
    {
        match kind {
            0 => SizePolicy::Auto,
            _ => SizePolicy::Fixed(threshold),
        }
    }
}

// Leaf threshold, neighbour count, factor and coarse threshold.
#[derive(Clone, Copy)]
pub struct DDMParams {
    pub leaf_threshold: u32,
    pub overlap_knn: u32,
    pub coarse_reduction_factor: u32,
    pub coarse_threshold: SizePolicy,
}

// The number of axes, and the settings of the build on them. The builds take points and settings apart: here the number of axes would stand
// twice, and a pair of both, as a stream's job is, would be taken apart again in each call, and doesn't fit the builds over a table.
#[derive(Clone, Copy)]
pub struct Settings {
    pub dimensions: usize,
    pub params: DDMParams,
}
