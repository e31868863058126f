// The printout of a tree, line by line, from the packed lists: each part is appended to what a writer has written.
#![tactic(auto)]

ghost use Rattle.std.specs.Prelude.{not, ℕ, ◌+◌, ◌<◌};
ghost use Rattle.formats.specs.Printout.{domain_line, fine_lines, levels_text, tree_text};
ghost use Rattle.bytes_out.specs.Writing.{Takes, Appends};
ghost use Rattle.packed.specs.Reading.{RowFits, read_leaves, Stands, read_levels};
ghost use Rattle.packed.specs.View.{packed_of, leaf_of};
ghost use Rattle.print_tree.specs.Unpack.{AnswerStands, answer_text, box_part, points_line, leaf_line, fine_level_text, coarse_level_text};

use bytes_out::Writer;
use packed::{Leaf, Packed};
use refusal::Refusal;
use tree_answer::{DDMTree, PackedTree};
use tree_lists::TreeRead;

// The bounds of a box; a dash for the coarse domain's. The flag stays: an Option of the bounds is no plainer, since each contract
// would take it apart again.
fn write_box(coarse: bool, bounds: &[f64], out: &mut Writer<'_>)
    requires { Takes out.old (box_part (not coarse) bounds.now) }
    ensures { Appends out.old out.new (box_part (not coarse) bounds.now) }
{
    if coarse {
        out.text(b" -");
    } else {
        print_texts::write_floats(bounds, out);
    }
}

// The line of the domain number i; the coarse domain has a dash for its box, and `coarse` is passed on to say so.
fn write_domain(i: usize, leaf: Leaf<'_>, coarse: bool, out: &mut Writer<'_>)
    requires { Takes out.old (domain_line i (leaf_of leaf) (box_part (not coarse) (leaf_of leaf).box)) }
    ensures { Appends out.old out.new (domain_line i (leaf_of leaf.entry) (box_part (not coarse) (leaf_of leaf.entry).box)) }
{
    print_texts::write_numbered(b"domain ", i, out);
    print_texts::write_listed(b" internal", leaf.own, out);
    print_texts::write_listed(b" overlap", leaf.borrowed, out);
    out.text(b" box");
    write_box(coarse, leaf.bounds, out);
    print_texts::write_valued(b" cover", leaf.cover, out);
    print_texts::write_numbered(b" depth ", leaf.depth, out);
    out.byte(b'\n');
}

// The line of the level number t.
fn write_level(t: usize, rows: &[usize], out: &mut Writer<'_>)
    requires { Takes out.old (points_line t rows.now) }
    ensures { Appends out.old out.new (points_line t rows.now) }
{
    print_texts::write_numbered(b"level ", t, out);
    print_texts::write_listed(b" points", rows, out);
    out.byte(b'\n');
}

// The line of a domain, from the domain row number j: its number is i.
fn write_leaf(coarse: bool, i: usize, j: usize, tree: Packed<'_>, out: &mut Writer<'_>)
    requires row_fits { RowFits (packed_of tree) j }
    requires room_for { Takes out.old (leaf_line (not coarse) i (packed_of tree) j) }
    ensures { Appends out.old out.new (leaf_line (not coarse) i (packed_of tree.entry) j) }
{
    write_domain(i, tree.leaf(j), coarse, out);
}

// The lines of m fine domains, from the domain row number j on. A number of rows, here and below, and no slice: a leaf stands in four lists, and the
// number of its row finds it in each. Tree, first row and number are no value of their own: it would be made once for each level, and taken apart
// one call later.
fn write_leaves(j: usize, m: usize, tree: Packed<'_>, out: &mut Writer<'_>)
    requires by_index { (i : ℕ) → i < m → RowFits (packed_of tree) (j + i) }
    requires room_for { Takes out.old (fine_lines 0 (read_leaves (packed_of tree) j m)) }
    ensures { Appends out.old out.new (fine_lines 0 (read_leaves (packed_of tree.entry) j m)) }
{
    for i in 0..m {
        write_leaf(false, i, j + i, tree, out);
    }
}

// The lines of the fine level number t: its rows, and m domains from the domain row number j on.
fn write_fine(t: usize, rows: &[usize], j: usize, m: usize, tree: Packed<'_>, out: &mut Writer<'_>)
    requires by_index { (i : ℕ) → i < m → RowFits (packed_of tree) (j + i) }
    requires room_for { Takes out.old (fine_level_text t rows.now (packed_of tree) j m) }
    ensures { Appends out.old out.new (fine_level_text t rows.now (packed_of tree.entry) j m) }
{
    write_level(t, rows, out);
    write_leaves(j, m, tree, out);
}

// The lines of the coarse level number t, whose one domain is the domain row number j.
fn write_coarse(t: usize, rows: &[usize], j: usize, tree: Packed<'_>, out: &mut Writer<'_>)
    requires row_fits { RowFits (packed_of tree) j }
    requires room_for { Takes out.old (coarse_level_text t rows.now (packed_of tree) j) }
    ensures { Appends out.old out.new (coarse_level_text t rows.now (packed_of tree.entry) j) }
{
    write_level(t, rows, out);
    write_leaf(true, 0, j, tree, out);
}

// The lines of all levels. Rows and domain rows of a level start where those above end, so both starts go along. The walk of store_bytes is its
// own: what is called for a level differs, and the last one is taken apart here.
fn write_levels(tree: PackedTree<'_>, out: &mut Writer<'_>)
    requires stands { Stands (packed_of tree.leaves) tree.level_points.now tree.rows.now tree.domains.now tree.levels }
    requires room_for { Takes out.old (levels_text 0 (read_levels (packed_of tree.leaves) tree.level_points.now tree.rows.now tree.domains.now tree.levels)) }
    ensures { Appends out.old out.new (levels_text 0
        (read_levels (packed_of tree.entry.leaves) tree.entry.level_points.now tree.entry.rows.now tree.entry.domains.now tree.entry.levels)) }
{
    let last = tree.levels - 1;
    let mut a = 0;
    let mut j = 0;
    for t in 0..last {
        let e = a + tree.rows[t];
        let m = tree.domains[t];
        write_fine(t, &tree.level_points[a..e], j, m, tree.leaves, out);
        a = e;
        j += m;
    }
    let e = a + tree.rows[last];
    write_coarse(last, &tree.level_points[a..e], j, tree.leaves, out);
}

// The whole tree: its levels with their row and domain counts, and the packed lists.
pub fn write_tree(tree: PackedTree<'_>, out: &mut Writer<'_>)
    requires stands { Stands (packed_of tree.leaves) tree.level_points.now tree.rows.now tree.domains.now tree.levels }
    requires room_for { Takes out.old (tree_text (read_levels (packed_of tree.leaves) tree.level_points.now tree.rows.now tree.domains.now tree.levels)) }
    ensures { Appends out.old out.new (tree_text
        (read_levels (packed_of tree.entry.leaves) tree.entry.level_points.now tree.entry.rows.now tree.entry.domains.now tree.entry.levels)) }
{
    print_texts::write_numbered(b"levels ", tree.levels, out);
    out.byte(b'\n');
    write_levels(tree, out);
}

// The answer of a call that makes a tree: the tree, which the lists hold, or the refusal.
pub fn write_answer(
    answer: Result<DDMTree, Refusal>,
    lists: TreeRead<'_>,
    dimensions: usize,
    out: &mut Writer<'_>,
)
    requires stands { AnswerStands answer lists dimensions }
    requires room_for { Takes out.old (answer_text answer lists dimensions) }
    ensures { Appends out.old out.new (answer_text answer lists.entry dimensions) }
{
    match answer {
        Ok(counts) => write_tree(PackedTree::of(&counts, lists, dimensions), out),
        Err(refusal) => print_texts::write_refusal(refusal, out),
    }
}
