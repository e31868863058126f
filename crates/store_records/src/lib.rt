// The records of a stored tree, each appended to what a writer has written.
#![tactic(auto)]

ghost use Rattle.std.specs.Prelude.{◌+◌, ◌*◌, ◌≤◌, length};
ghost use Rattle.formats.specs.Bytes.{floats_bytes};
ghost use Rattle.bytes_in.specs.Marks.{mark_read};
ghost use Rattle.config.specs.Params.{settings_are};
ghost use Rattle.bytes_out.specs.Writing.{Takes, Appends};
ghost use Rattle.packed.specs.Reading.{RowFits, read_leaf};
ghost use Rattle.packed.specs.View.{packed_of};
ghost use Rattle.stored.specs.File.{head_bytes_lem, point_bytes};
ghost use Rattle.store_records.specs.Records.{counts_bytes, level_record, bounds_given, domain_record};

use bytes_in::{MARK, marks};
use bytes_out::Writer;
use config::Settings;
use packed::Packed;
use points::Points;

// ---- parts of records

// The mark of a record, and two counts.
fn put_counts(mark: [u8; MARK], first: usize, second: usize, out: &mut Writer<'_>)
    requires { Takes out.old (counts_bytes (mark_read mark) first second) }
    ensures { Appends out.old out.new (counts_bytes (mark_read mark) first second) }
{
    out.mark(mark);
    out.field(first);
    out.field(second);
}

// The bounds of a domain's box; the coarse domain's record has none. The flag stays: an Option of the bounds is no plainer, since
// each contract would take it apart again.
fn put_bounds(coarse: bool, bounds: &[f64], out: &mut Writer<'_>)
    requires { Takes out.old (floats_bytes (bounds_given coarse bounds.now)) }
    ensures { Appends out.old out.new (floats_bytes (bounds_given coarse bounds.now)) }
{
    if coarse {
        return;
    }
    out.fields(bounds);
}

// ---- records

// The head, which the bytes begin with: the settings, and the number of points.
pub fn put_head(settings: Settings, n: usize, out: &mut Writer<'_>)
    requires { Takes out.old (head_bytes_lem (settings_are settings) n) }
    ensures { Appends out.old out.new (head_bytes_lem (settings_are settings) n) }
{
    out.mark(marks::HEAD);
    settings_record::put_settings(settings, out);
    out.field(n);
}

// The point of row i.
pub fn put_point(points: Points<'_>, i: usize, out: &mut Writer<'_>)
    requires dimensions_in_bounds { i * points.dimensions + points.dimensions ≤ length points.coordinates.now }
    requires room_for { Takes out.old (point_bytes points.dimensions points.coordinates.now i) }
    ensures { Appends out.old out.new (point_bytes points.entry.dimensions points.entry.coordinates.now i) }
{
    out.mark(marks::FILE_POINT);
    out.fields(points.point(i));
}

// A level: its rows, and how many domains it has.
pub fn put_level(rows: &[usize], domain_count: usize, out: &mut Writer<'_>)
    requires { Takes out.old (level_record rows.now domain_count) }
    ensures { Appends out.old out.new (level_record rows.now domain_count) }
{
    put_counts(marks::LEVEL, rows.len(), domain_count, out);
    out.fields(rows);
}

// The domain of the domain row number j. The flag stays: an Option of the bounds is no plainer, since each contract would take it apart again.
pub fn put_domain(tree: Packed<'_>, j: usize, coarse: bool, out: &mut Writer<'_>)
    requires row_fits { RowFits (packed_of tree) j }
    requires room_for { Takes out.old (domain_record coarse (read_leaf (packed_of tree) j)) }
    ensures { Appends out.old out.new (domain_record coarse (read_leaf (packed_of tree.entry) j)) }
{
    let leaf = tree.leaf(j);
    put_counts(marks::DOMAIN, leaf.own.len(), leaf.borrowed.len(), out);
    out.fields(leaf.own);
    out.fields(leaf.borrowed);
    put_bounds(coarse, leaf.bounds, out);
    out.field(leaf.cover);
    out.field(leaf.depth);
}
