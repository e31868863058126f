// A job of the stream.
#![tactic(auto)]

ghost use Rattle.config.specs.Params.{settings_of_lem};
ghost use Rattle.stream_laws.specs.Sizes.{JobLimits};

use config::DDMParams;
use points::Points;

// A job: its points, and the settings of its build. It is within the limits of a stream, so that the room for the largest job suffices for it:
// one to three axes, at most 32 points, and at most 16 neighbours.
#[derive(Clone, Copy)]
pub struct Job<'a> {
    pub points: Points<'a>,
    pub params: DDMParams,
    pub ghost limits: { JobLimits (settings_of_lem points.dimensions params) points.coordinates.now },
}
