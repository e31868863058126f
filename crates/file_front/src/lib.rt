// The head and the points of a stored tree, tested where they stand in the caller's bytes, and compared with the present points.
#![tactic(auto)]

ghost use Rattle.std.specs.Prelude.{◌≡◌, true, not, ◌&&◌, ◌+◌, ◌*◌, ◌^◌, ◌≤◌, ◌<◌, length, drop, is_some, IfSome};
ghost use Rattle.std.specs.Float.Ieee.Scale.{finite};
ghost use Rattle.lists.specs.Lists.{any_of, part};
ghost use Rattle.definition.specs.Tree.{point_count};
ghost use Rattle.definition.specs.Tree as tree;
ghost use Rattle.definition.specs.Refusals.{most_points};
ghost use Rattle.formats.specs.Bytes.{float_size, floats_bytes};
ghost use Rattle.formats.specs.Stream.{settings_in};
ghost use Rattle.stored.specs.Sound.{same};
ghost use Rattle.stored.specs.Outcome.{same_settings_lem, same_points_lem};
ghost use Rattle.stored.specs.Stored.{head_size, points_in, buildable};
ghost use Rattle.tree_tests.specs.Whole.{points_whole, front_whole};
ghost use Rattle.config.specs.Params.{settings_are};
ghost use Rattle.file_front.specs.Fronts.{point_place, points_at, head_taken};
ghost use Rattle.file_front.specs.Reading.{FrontRead};

use bytes_in::marks;
use config::Settings;
use points::Points;

// The head's bytes: the settings record's, and the point count's.
pub const HEAD: usize = settings_record::SIZE + bytes_in::NUMBER;

// The head and the points of a file that pass: the settings and the point count in it, and where the levels begin.
#[derive(Clone, Copy)]
pub struct Front {
    pub settings: Settings,
    pub n: usize,
    pub next: usize,
}

// Where the record of row i begins; where n of them end. That a number has four bytes is asked here and below, and is no type's promise: it is
// multiplied and compared as the counts of points are, which are `usize`.
fn row_place(dimensions: usize, i: usize) -> usize
    requires { (dimensions ≤ 3) × (i < 2 ^ 32) }
    ensures { result ≡ point_place dimensions i }
{
    HEAD + i * bytes_in::point_size(dimensions)
}

// ---- tested

// Whether each of n point records after the head stands whole and has finite coordinates.
pub fn points_pass(bytes: &[u8], n: usize, dimensions: usize) -> bool
    requires { (head_size ≤ length bytes.now) × (dimensions ≤ 3) × (n < 2 ^ 32) }
    ensures { result ≡ points_whole dimensions n (drop head_size bytes.now) && not (any_of (λ x. not (finite x)) (points_at dimensions n bytes.now)) }
{
    let size = bytes_in::point_size(dimensions);
    for i in 0..n {
        let at = row_place(dimensions, i);
        if !bytes_in::record_at(bytes, at, size, marks::FILE_POINT) {
            return false;
        }
        if !bytes_in::finite_at(bytes, at + bytes_in::MARK, dimensions) {
            return false;
        }
    }
    true
}

// Whether the build takes the settings with n points, whatever their coordinates are.
fn head_passes(settings: Settings, n: usize) -> bool
    requires { n < 2 ^ 32 }
    ensures { result ≡ head_taken (settings_are settings) n }
{
    build_checks::rows_fault(n, settings).is_ok()
}

// Tests the head and the points of a file: each record stands whole at its place, and the build takes what stands in them.
pub fn check_front(bytes: &[u8]) -> Option<Front>
    ensures good { is_some result ≡ front_whole bytes.now && buildable (settings_in bytes.now) (points_in bytes.now) }
    ensures read { IfSome result (λ front. FrontRead front bytes.now) }
{
    if !bytes_in::record_at(bytes, 0, HEAD, marks::HEAD) {
        return None;
    }
    if !settings_record::policy_fits(bytes) {
        return None;
    }
    let settings = settings_record::settings_of(bytes);
    let n = bytes_in::number_at(bytes, settings_record::SIZE);
    if !head_passes(settings, n) {
        return None;
    }
    let dimensions = settings.dimensions;
    if !points_pass(bytes, n, dimensions) {
        return None;
    }
    let next = row_place(dimensions, n);
    Some(Front { settings, n, next })
}

// ---- compared

// Whether floats have the bits in the bytes from `at` on. The bits are compared, since `==` takes 0 and -0 for equal.
fn floats_are(xs: &[f64], bytes: &[u8], at: usize) -> bool
    requires { at + float_size * length xs.now ≤ length bytes.now }
    ensures { result ≡ same (floats_bytes xs.now) (part bytes.now at (float_size * length xs.now)) }
{
    for (i, &x) in xs.iter().enumerate() {
        let bits = bytes_out::bits_of(x);
        if bits != bytes_in::bits_at(bytes, at + bytes_in::FLOAT * i) {
            return false;
        }
    }
    true
}

// Whether the present points are those of a file whose head and points stand whole and whose settings are the present ones: as many,
// and bit for bit.
pub fn same_points(points: Points<'_>, bytes: &[u8]) -> bool
    requires { (front_whole bytes.now ≡ true) × ((settings_in bytes.now).dimension ≡ points.dimensions) × (1 ≤ points.dimensions) × (points.dimensions ≤ 3)
        × (point_count points.dimensions points.coordinates.now ≤ most_points) }
    ensures { (s : tree.Settings) → s.dimension ≡ points.entry.dimensions → same_settings_lem s bytes.now ≡ true
        → result ≡ same_points_lem s points.entry.coordinates.now bytes.now }
{
    let n = bytes_in::number_at(bytes, settings_record::SIZE);
    if points.count() != n {
        return false;
    }
    for i in 0..n {
        let at = row_place(points.dimensions, i);
        if !floats_are(points.point(i), bytes, at + bytes_in::MARK) {
            return false;
        }
    }
    true
}
