// A box by value, and boxes as lent: the lower bound on each axis, then the upper bound on each axis.
#![tactic(auto)]

ghost use Rattle.std.specs.Prelude.{◌≡◌, ◌+◌, ◌*◌, ◌^◌, ◌≤◌, ◌<◌, ◌++◌, length, set, take, replicate};
ghost use Rattle.lists.specs.Lists.{part, put};
ghost use Rattle.definition.specs.Number.{plus_zero};
ghost use Rattle.definition.specs.Points.{box_width_lem};
ghost use Rattle.boxes.specs.Boxes.{floats_of};

// The bounds of a box on one axis: a lower and an upper one.
const BOUNDS: usize = 2;

// How many bounds a box has on three axes.
pub const WIDEST_BOX: usize = BOUNDS * 3;

// How many bounds a box has.
pub fn box_width(dimensions: usize) -> usize
    requires { dimensions ≤ 3 }
    ensures { result ≡ box_width_lem dimensions }
{
    BOUNDS * dimensions
}

// How many bounds k boxes take up that stand one after the other: there the box number k starts.
pub fn bounds_before(dimensions: usize, k: usize) -> usize
    requires { (dimensions ≤ 3) × (box_width_lem dimensions * k < 2 ^ 64) }
    ensures { result ≡ box_width_lem dimensions * k }
{
    box_width(dimensions) * k
}

// The bounds on up to three axes; those past the dimension are not used. Arrays of three beside the dimension, and no slices: a box is
// handed on by value while the list that it was read from is written, and the library has no heap for a list of its own.
#[derive(Clone, Copy)]
pub struct Extents {
    pub lower: [f64; 3],
    pub upper: [f64; 3],
    pub dimensions: usize,
}

impl Extents {
    // The boxes of the two halves of a domain, cut by a plane on this axis. Each is the domain's box with one bound changed: on the left the
    // upper one, on the right the lower one.
    pub fn halves(self, axis: usize, plane: f64) -> (Extents, Extents)
        requires { (axis < self.dimensions) × (self.dimensions ≤ 3) }
        ensures left { (result.0.dimensions ≡ self.dimensions) × (floats_of result.0 ≡ set (floats_of self) (self.dimensions + axis) plane) }
        ensures right { (result.1.dimensions ≡ self.dimensions) × (floats_of result.1 ≡ set (floats_of self) axis plane) }
    {
        let mut left = self;
        left.upper[axis] = plane;
        let mut right = self;
        right.lower[axis] = plane;
        (left, right)
    }
}

// The box of these bounds.
pub fn read_box(bounds: &[f64], dimensions: usize) -> Extents
    requires { (length bounds.now ≡ box_width_lem dimensions) × (dimensions ≤ 3) }
    ensures { (result.dimensions ≡ dimensions) × (floats_of result ≡ bounds.now) }
{
    let mut lower = [0.0; 3];
    let mut upper = [0.0; 3];
    lower[..dimensions].copy_from_slice(&bounds[..dimensions]);
    upper[..dimensions].copy_from_slice(&bounds[dimensions..]);
    Extents {
        lower,
        upper,
        dimensions,
    }
}

// Writes the box to the bounds.
pub fn write_box(b: Extents, bounds: &mut [f64])
    requires { (length bounds.old ≡ box_width_lem b.dimensions) × (b.dimensions ≤ 3) }
    ensures { bounds.new ≡ floats_of b }
{
    bounds[..b.dimensions].copy_from_slice(&b.lower[..b.dimensions]);
    bounds[b.dimensions..].copy_from_slice(&b.upper[..b.dimensions]);
}

// Writes the boxes of the two halves of a domain to the bounds, left before right.
pub fn write_halves(whole: Extents, axis: usize, plane: f64, bounds: &mut [f64])
    requires { (axis < whole.dimensions) × (whole.dimensions ≤ 3) × (length bounds.old ≡ 2 * box_width_lem whole.dimensions) }
    ensures { bounds.new ≡ set (floats_of whole) (whole.dimensions + axis) plane ++ set (floats_of whole) axis plane }
{
    let (left, right) = whole.halves(axis, plane);
    let width = box_width(whole.dimensions);
    write_box(left, &mut bounds[..width]);
    write_box(right, &mut bounds[width..]);
}

// Writes `count` zeros to the box list, from `at` on: the box of a domain that has none. A place and a count, and no slice: the callers'
// contracts speak of the whole list, and the step from the part that is lent to it stands here once.
pub fn put_zeros(boxes: &mut [f64], at: usize, count: usize)
    requires { at + count ≤ length boxes.old }
    ensures { boxes.new ≡ put boxes.old at (replicate count plus_zero) }
{
    boxes[at..at + count].fill(0.0);
}
