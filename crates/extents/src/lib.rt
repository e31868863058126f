// The extents of some rows.
#![tactic(auto)]

mod bounds;

pub use bounds::{get_pointarray_extents, lower_bound, upper_bound};
