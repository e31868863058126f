// The settings record of a job stream, and of a stored tree: read, written and compared.
#![tactic(auto)]

ghost use Rattle.std.specs.Prelude.{◌≡◌, ◌+◌, ◌≤◌, length};
ghost use Rattle.formats.specs.Bytes.{number_at, number_size};
ghost use Rattle.formats.specs.Stream.{settings_size, policy_fits_lem, settings_in, policy_bytes, settings_bytes};
ghost use Rattle.stored.specs.Outcome.{same_settings_lem};
ghost use Rattle.bytes_out.specs.Writing.{Takes, Appends};
ghost use Rattle.config.specs.Params.{threshold_policy, settings_are};

use bytes_out::Writer;
use config::{DDMParams, Settings, SizePolicy};

// Where each field of the record begins, and where the record ends.
const DIMENSION: usize = bytes_in::MARK;

const LEAF: usize = DIMENSION + 1;

const NEIGHBOURS: usize = LEAF + bytes_in::NUMBER;

const FACTOR: usize = NEIGHBOURS + bytes_in::NUMBER;

const POLICY: usize = FACTOR + bytes_in::NUMBER;

const THRESHOLD: usize = POLICY + 1;

pub const SIZE: usize = THRESHOLD + bytes_in::NUMBER;

// The bytes of the fields, behind the mark.
const FIELDS: usize = SIZE - DIMENSION;

// ---- read

// A slice here and below, and no array of `SIZE` bytes: the record is the front of a longer list of bytes, and each caller would have to
// turn that front into an array first.

// Whether the record has policy 1, or policy 0 with the threshold 0.
pub fn policy_fits(input: &[u8]) -> bool
    requires { settings_size ≤ length input.now }
    ensures { result ≡ policy_fits_lem input.now }
{
    match bytes_in::byte_at(input, POLICY) {
        0 => bytes_in::number_at(input, THRESHOLD) == 0,
        1 => true,
        _ => false,
    }
}

// The number of four bytes from `at` on, as a setting.
fn setting_at(input: &[u8], at: usize) -> u32
    requires { at + number_size ≤ length input.now }
    ensures { result ≡ number_at at input.now }
{
    bytes_in::number_at(input, at) as u32
}

// The settings in a whole record. It is no `From`, which takes no `requires`: a record stands in a list of any length.
pub fn settings_of(input: &[u8]) -> Settings
    requires { settings_size ≤ length input.now }
    ensures { settings_are result ≡ settings_in input.now }
{
    let kind = bytes_in::byte_at(input, POLICY);
    let params = DDMParams {
        leaf_threshold: setting_at(input, LEAF),
        overlap_knn: setting_at(input, NEIGHBOURS),
        coarse_reduction_factor: setting_at(input, FACTOR),
        coarse_threshold: SizePolicy::of(kind, setting_at(input, THRESHOLD)),
    };
    Settings {
        dimensions: bytes_in::byte_at(input, DIMENSION),
        params,
    }
}

// ---- written, after the mark

// Appends the policy's number and its threshold, which is 0 for Auto.
fn put_policy(policy: SizePolicy, out: &mut Writer<'_>)
    requires { Takes out.old (policy_bytes (threshold_policy policy)) }
    ensures { Appends out.old out.new (policy_bytes (threshold_policy policy)) }
{
    let (kind, threshold) = match policy {
        SizePolicy::Auto => (0, 0),
        SizePolicy::Fixed(threshold) => (1, threshold as usize),
    };
    out.low_byte(kind);
    out.field(threshold);
}

// Appends the record's bytes after its mark.
pub fn put_settings(settings: Settings, out: &mut Writer<'_>)
    requires { Takes out.old (settings_bytes (settings_are settings)) }
    ensures { Appends out.old out.new (settings_bytes (settings_are settings)) }
{
    let Settings { dimensions, params } = settings;
    out.low_byte(dimensions);
    out.field(params.leaf_threshold as usize);
    out.field(params.overlap_knn as usize);
    out.field(params.coarse_reduction_factor as usize);
    put_policy(params.coarse_threshold, out);
}

// ---- compared

// Whether a whole record has these settings, byte for byte: settings that are read and then compared by `==` would be the same for records that
// differ.
pub fn same_settings(settings: Settings, input: &[u8]) -> bool
    requires { settings_size ≤ length input.now }
    ensures { result ≡ same_settings_lem (settings_are settings) input.now }
{
    let mut bytes = [0; FIELDS];
    let mut out = Writer {
        bytes: &mut bytes,
        at: 0,
    };
    put_settings(settings, &mut out);
    bytes[..] == input[DIMENSION..SIZE]
}
