// The bytes of a stored tree, from the points, the counts and the packed lists: records one after the other, appended by a writer.
#![tactic(auto)]

ghost use Rattle.std.specs.Prelude.{◌≡◌, ℕ, ◌+◌, ◌/◌, ◌≤◌, ◌<◌, map, length};
ghost use Rattle.lists.specs.Lists.{joined, from, put};
ghost use Rattle.config.specs.Params.{settings_of_lem};
ghost use Rattle.bytes_out.specs.Writing.{Takes, Appends};
ghost use Rattle.packed.specs.Reading.{RowFits, read_leaves, Stands};
ghost use Rattle.packed.specs.View.{packed_of};
ghost use Rattle.tree_answer.specs.Answers.{tree_counts};
ghost use Rattle.stored.specs.File.{point_bytes, front_bytes_lem, tree_records};
ghost use Rattle.store_bytes.specs.Runs.{domain_records, level_of, level_records, levels_in, file_of};

use bytes_out::Writer;
use config::{DDMParams, Settings};
use packed::Packed;
use points::Points;
use tree_answer::PackedTree;

// The points.
fn put_points(points: Points<'_>, out: &mut Writer<'_>)
    requires dimensions_nonzero { 1 ≤ points.dimensions }
    requires room_for { Takes out.old (joined (map (point_bytes points.dimensions points.coordinates.now)
        (from 0 (length points.coordinates.now / points.dimensions)))) }
    ensures { Appends out.old out.new (joined (map (point_bytes points.entry.dimensions points.entry.coordinates.now)
        (from 0 (length points.entry.coordinates.now / points.entry.dimensions)))) }
{
    for i in 0..points.count() {
        store_records::put_point(points, i, out);
    }
}

// The head and the points.
fn put_front(points: Points<'_>, params: DDMParams, out: &mut Writer<'_>)
    requires le_dimensions { (1 ≤ points.dimensions) × (points.dimensions ≤ 3) }
    requires room_for { Takes out.old (front_bytes_lem (settings_of_lem points.dimensions params) points.coordinates.now) }
    ensures { Appends out.old out.new (front_bytes_lem (settings_of_lem points.entry.dimensions params) points.entry.coordinates.now) }
{
    let n = points.count();
    let dimensions = points.dimensions;
    store_records::put_head(Settings { dimensions, params }, n, out);
    put_points(points, out);
}

// The domains of m domain rows from the row number j on. A number of rows, and no slice: a leaf stands in four lists, and the number of its row
// finds it in each. The flag, here and below, says whether a level is the last one: each contract would turn an enum back into it. Tree, first row
// and number are no value of their own: it would be made once for each level, and taken apart one call later. That each of these rows lies within
// the lists is asked here and in print_tree, and is no type's promise: the rows are those that the tree's counts name, and counts and lists are lent
// apart.
fn put_domains(tree: Packed<'_>, j: usize, m: usize, coarse: bool, out: &mut Writer<'_>)
    requires by_index { (i : ℕ) → i < m → RowFits (packed_of tree) (j + i) }
    requires room_for { Takes out.old (domain_records coarse (read_leaves (packed_of tree) j m)) }
    ensures { Appends out.old out.new (domain_records coarse (read_leaves (packed_of tree.entry) j m)) }
{
    for i in 0..m {
        store_records::put_domain(tree, j + i, coarse, out);
    }
}

// A level with its domains: its rows, and the domains of m domain rows from the row number j on.
fn put_whole_level(
    rows: &[usize],
    tree: Packed<'_>,
    j: usize,
    m: usize,
    coarse: bool,
    out: &mut Writer<'_>,
)
    requires by_index { (i : ℕ) → i < m → RowFits (packed_of tree) (j + i) }
    requires room_for { Takes out.old (level_records coarse (level_of rows.now (read_leaves (packed_of tree) j m))) }
    ensures { Appends out.old out.new (level_records coarse (level_of rows.now (read_leaves (packed_of tree.entry) j m))) }
{
    store_records::put_level(rows, m, out);
    put_domains(tree, j, m, coarse, out);
}

// The levels, by the row and domain counts per level; the last one is the coarse one. Rows and domain rows of a level start where those above
// end, so both starts go along. The walk of print_tree is its own: what is called for a level differs, and the printout takes the last one apart.
fn put_levels(tree: PackedTree<'_>, out: &mut Writer<'_>)
    requires stands { Stands (packed_of tree.leaves) tree.level_points.now tree.rows.now tree.domains.now tree.levels }
    requires room_for { Takes out.old (joined (tree_records (levels_in (tree_counts tree) tree.level_points.now (packed_of tree.leaves)))) }
    ensures { Appends out.old out.new (joined (tree_records (levels_in (tree_counts tree.entry) tree.entry.level_points.now (packed_of tree.entry.leaves)))) }
{
    let mut a = 0;
    let mut j = 0;
    for t in 0..tree.levels {
        let e = a + tree.rows[t];
        let m = tree.domains[t];
        let coarse = t + 1 == tree.levels;
        put_whole_level(&tree.level_points[a..e], tree.leaves, j, m, coarse, out);
        a = e;
        j += m;
    }
}

// The whole file of the tree that stands in the lists with these counts. The answer is the number of its bytes.
pub fn put_file(
    points: Points<'_>,
    params: DDMParams,
    tree: PackedTree<'_>,
    out: &mut [u8],
) -> usize
    requires le_dimensions { (1 ≤ points.dimensions) × (points.dimensions ≤ 3) }
    requires stands { Stands (packed_of tree.leaves) tree.level_points.now tree.rows.now tree.domains.now tree.levels }
    requires borrowed_in_bounds { length (file_of (settings_of_lem points.dimensions params) points.coordinates.now (tree_counts tree) tree.level_points.now
        (packed_of tree.leaves)) ≤ length out.old }
    ensures answer { result ≡ length (file_of (settings_of_lem points.entry.dimensions params) points.entry.coordinates.now (tree_counts tree.entry)
        tree.entry.level_points.now (packed_of tree.entry.leaves)) }
    ensures file { out.new ≡ put out.old 0 (file_of (settings_of_lem points.entry.dimensions params) points.entry.coordinates.now (tree_counts tree.entry)
        tree.entry.level_points.now (packed_of tree.entry.leaves)) }
{
    let mut writer = Writer { bytes: out, at: 0 };
    put_front(points, params, &mut writer);
    put_levels(tree, &mut writer);
    writer.at
}
