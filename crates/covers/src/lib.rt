// The floats of a level's domain rows: the boxes of its leaves, which the cut has packed one after the other, each put to its own row
// with its cover behind it.
#![tactic(auto)]

ghost use Rattle.std.specs.Prelude.{◌≡◌, [], ◌∷◌, ◌++◌, ◌+◌, ◌*◌, ◌≤◌, length};
ghost use Rattle.lists.specs.Lists.{part, put};
ghost use Rattle.definition.specs.Points.{box_width_lem};
ghost use Rattle.definition.specs.Packed.{row_floats_lem};
ghost use Rattle.covers.specs.Covered.{covered};

// Puts the box number l of those that stand packed from `start` on to the row number l from there on, with its cover.
fn put_cover(boxes: &mut [f64], dimensions: usize, start: usize, l: usize, cover: f64)
    requires { (dimensions ≤ 3) × (start + row_floats_lem dimensions * (l + 1) ≤ length boxes.old) }
    ensures { boxes.new ≡ put boxes.old (start + row_floats_lem dimensions * l) (part boxes.old (start + box_width_lem dimensions * l) (box_width_lem dimensions) ++ cover ∷ []) }
{
    let width = boxes::box_width(dimensions);
    let from = start + boxes::bounds_before(dimensions, l);
    let to = start + packed::floats_before(dimensions, l);
    // by value: both may overlap, and `copy_within` becomes a call of `memmove`, which the archive for C would need from outside
    let whole = boxes::read_box(&boxes[from..from + width], dimensions);
    boxes::write_box(whole, &mut boxes[to..to + width]);
    boxes[to + width] = cover;
}

// The boxes of as many leaves as there are covers stand packed where the floats of the domain row number `first` start. Each is put to the
// floats of its own row, with its cover behind it: from the last on, so that none is written over before it is read.
pub fn put_covers(boxes: &mut [f64], dimensions: usize, first: usize, covers: &[f64])
    requires { (dimensions ≤ 3) × (row_floats_lem dimensions * (first + length covers.now) ≤ length boxes.old) }
    ensures { boxes.new ≡ put boxes.old (row_floats_lem dimensions * first) (covered dimensions boxes.old (row_floats_lem dimensions * first) covers.now) }
{
    let start = packed::floats_before(dimensions, first);
    // by the index: tried as `enumerate().rev()`, whose proof has no fact that ties the cover at hand to its place
    for l in (0..covers.len()).rev() {
        put_cover(boxes, dimensions, start, l, covers[l]);
    }
}
