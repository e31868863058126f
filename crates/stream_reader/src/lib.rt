// The job stream: settings and points from a list of bytes.
#![tactic(auto)]

ghost use Rattle.std.specs.Prelude.{◌≡◌, ◌&&◌, ◌*◌, ◌≤◌, [], length, IfOk};
ghost use Rattle.formats.specs.Bytes.{whole};
ghost use Rattle.formats.specs.Stream.{settings_mark, settings_size, policy_fits_lem, stream_points, read_points as points_from, job_in};
ghost use Rattle.config.specs.Params.{settings_are};
ghost use Rattle.stream_reader.specs.Reading.{points_of, job_of, Within};

use bytes_in::marks;
use config::Settings;
use points::Points;
use refusal::Refusal;

mod job;

pub use job::Job;

// The most points, and the most neighbours, that a stream may have.
pub const MOST_POINTS: usize = 32;

pub const MOST_NEIGHBOURS: u32 = 16;

// Whether a whole settings record stands at the beginning.
fn settings_whole(input: &[u8]) -> bool
    ensures { result ≡ whole settings_mark settings_size input.now && policy_fits_lem input.now }
{
    bytes_in::record_at(input, 0, settings_record::SIZE, marks::SETTINGS)
        && settings_record::policy_fits(input)
}

// Reads the points of the records behind the settings: their coordinates to the front of `coordinates`. The answer is how many there are.
fn read_points(
    records: &[u8],
    settings: Settings,
    coordinates: &mut [f64],
) -> Result<usize, Refusal>
    requires axes { (1 ≤ settings.dimensions) × (settings.dimensions ≤ 3) }
    requires room { 3 * stream_points ≤ length coordinates.old }
    ensures same { points_of settings result coordinates.new ≡ points_from (settings_are settings) stream_points settings_size records.now [] }
    ensures few { IfOk result (λ n. n ≤ stream_points) }
{
    let d = settings.dimensions;
    let size = bytes_in::point_size(d);
    for (n, record) in records.chunks(size).enumerate() {
        if !bytes_in::record_at(record, 0, size, marks::POINT) {
            return Err(Refusal::BrokenRecord(settings_record::SIZE + n * size));
        }
        if n == MOST_POINTS {
            return Err(Refusal::LargeJob);
        }
        let row = n * d;
        bytes_in::read_fields(record, bytes_in::MARK, &mut coordinates[row..row + d]);
    }
    Ok(records.len() / size)
}

// Reads a job, with its points' coordinates at the front of `coordinates`.
pub fn read_job<'a>(input: &[u8], coordinates: &'a mut [f64]) -> Result<Job<'a>, Refusal>
    requires { 3 * stream_points ≤ length coordinates.old }
    ensures same { job_of result ≡ job_in input.now }
    ensures within { Within result }
{
    if !settings_whole(input) {
        return Err(Refusal::BrokenRecord(0));
    }
    let settings = settings_record::settings_of(input);
    let Settings { dimensions, params } = settings;
    point_checks::check_dimension(dimensions)?;
    let count = read_points(&input[settings_record::SIZE..], settings, coordinates)?;
    if MOST_NEIGHBOURS < params.overlap_knn {
        return Err(Refusal::LargeJob);
    }
    let points = Points {
        coordinates: &coordinates[..count * dimensions],
        dimensions,
    };
    Ok(Job { points, params })
}
