// Helpers of the build: indices, distances, extents, and the places of least and greatest values.
#![tactic(auto)]

mod distance;
mod places;

pub use boxes::Extents;
pub use distance::{
    GlobalIdx, LocalIdx, add_square, distance_sq, distance_sq_between, get_distance,
};
pub use extents::get_pointarray_extents;
pub use places::{argmax, argmin};
