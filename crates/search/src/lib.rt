// The nearest rows of a row, by a search of the level's record: a half is passed over where no row under it can be among those kept.
#![tactic(auto)]

mod ranked;

ghost use Rattle.std.specs.Prelude.{◌≡◌, ℕ, List, [], ◌∷◌, ◌+◌, ◌-◌, ◌*◌, ◌≤◌, ◌<◌, ◌&&◌, not, ltb, length, take};
ghost use Rattle.definition.specs.Keys.{before};
ghost use Rattle.definition.specs.Gap.{row_gap};
ghost use Rattle.definition.specs.Record.{Cuts};
ghost use Rattle.rows.specs.Rows.{GoodRow};
ghost use Rattle.boxes.specs.Boxes.{floats_of};
ghost use Rattle.record_laws.specs.Table.{rows_under};
ghost use Rattle.cut_index.specs.Filed.{index_width, least_of_node, position_in, positions_of};
ghost use Rattle.kept_laws.specs.First.{place_key, kept_key};
ghost use Rattle.search.specs.Visits.{Asked, Offered, Offers, Stands, LeafStands, HalfOf, FoundFor, Searchable};

use boxes::Extents;
use cut_index::CutIndex;
use node::Node;
use points::Points;
use ranked::Ranked;

// What a search goes by: the points, the active rows, how many nearest others of a row it looks for, the filed record, and the root's box. It is
// passed by value. The active rows are not read; the contracts say by them which rows the positions stand for.
#[derive(Clone, Copy)]
pub struct Search<'a> {
    pub points: Points<'a>,
    pub active: &'a [usize],
    pub neighbours: usize,
    pub filed: CutIndex<'a>,
    pub whole: Extents,
}

// A node that a search comes to: its place in the record, and the box of its domain.
#[derive(Clone, Copy)]
struct Place {
    pub at: usize,
    pub whole: Extents,
}

// The own rows of a leaf, and their positions in the active list.
#[derive(Clone, Copy)]
struct LeafRows<'a> {
    pub own: &'a [usize],
    pub places: &'a [usize],
}

impl<'a> Search<'a> {
    // The rows of the leaf with this number.
    fn leaf_rows(self, number: usize) -> LeafRows<'a>
        requires { (rows : List ℕ) × LeafStands self number rows }
        ensures { (rows : List ℕ) → LeafStands self.entry number rows → (result.own.now ≡ rows) × (result.places.now ≡ positions_of self.entry.active.now rows) }
    {
        let leaves = self.filed.leaves;
        let row = leaves.row(number);
        let start = row.internal_start - self.filed.from;
        LeafRows {
            own: leaves.own(number),
            places: &self.filed.positions[start..start + row.internal_count],
        }
    }

    // Offers one row, whose position is given, to those kept: it is put in where there is room or it comes before the last of them. The row itself
    // is not.
    fn offer(
        self,
        row: usize,
        other: usize,
        position: usize,
        count: usize,
        near: &mut [usize],
        far: &mut [f64],
    ) -> usize
        requires { (visited : List ℕ) × (position ≡ position_in self.active.now other) × (0 < self.neighbours) × Offered self row (other ∷ []) visited near.old far.old count }
        ensures { Offers self.entry row (other ∷ []) near.old far.old count near.new far.new result }
    {
        if other == row {
            return count;
        }
        let value = distances::distance_sq(
            self.points,
            distances::GlobalIdx(row),
            distances::GlobalIdx(other),
        );
        let new = Ranked { value, position };
        if count < self.neighbours {
            ranked::insert(near, far, count, new);
            return count + 1;
        }
        if new.comes_before(ranked::kept(near, far, count - 1)) {
            ranked::insert(near, far, count - 1, new);
        }
        count
    }

    // Offers the rows of a leaf.
    fn offer_leaf(
        self,
        row: usize,
        rows: LeafRows<'_>,
        count: usize,
        near: &mut [usize],
        far: &mut [f64],
    ) -> usize
        requires { (visited : List ℕ) × (rows.places.now ≡ positions_of self.active.now rows.own.now) × (0 < self.neighbours) × Offered self row rows.own.now visited near.old far.old count }
        ensures { Offers self.entry row rows.entry.own.now near.old far.old count near.new far.new result }
    {
        let mut so_far = count;
        for (k, &other) in rows.own.iter().enumerate() {
            so_far = self.offer(row, other, rows.places[k], so_far, near, far);
        }
        so_far
    }

    // Whether a node is passed over: as many as are wanted are kept, and the last of them comes before every row under the node. At an equal gap
    // the least position decides: without it, rows that stand at one place would all be asked of each other.
    fn passes_over(
        self,
        row: usize,
        place: Place,
        count: usize,
        near: &[usize],
        far: &[f64],
    ) -> bool
        requires asked { Asked self row × (place.whole.dimensions ≡ self.points.dimensions) × (index_width * (place.at + 1) ≤ length self.filed.index.now) }
        requires room { (0 < self.neighbours) × (count ≤ self.neighbours) × (self.neighbours ≤ length near.now) × (self.neighbours ≤ length far.now) }
        ensures { result ≡ (not (ltb count self.entry.neighbours)
            && before (kept_key near.now far.now (count - 1))
            (place_key (row_gap self.entry.points.dimensions self.entry.points.coordinates.now (floats_of place.whole) row) (least_of_node self.entry.filed.index.now place.at))) }
    {
        if count < self.neighbours {
            return false;
        }
        let half = Ranked {
            value: gaps::gap_sq(self.points, row, place.whole),
            position: self.filed.index[cut_index::ENTRY * place.at + 1],
        };
        ranked::kept(near, far, count - 1).comes_before(half)
    }

    // The right half of a cut node, or the left one.
    fn half(self, place: Place, axis: usize, plane: f64, right: bool) -> Place
        requires { (axis < place.whole.dimensions) × (place.whole.dimensions ≤ 3) × (index_width * (place.at + 1) ≤ length self.filed.index.now) }
        ensures { HalfOf self.entry place axis plane right result }
    {
        let (lower, upper) = place.whole.halves(axis, plane);
        if right {
            Place {
                at: self.filed.index[cut_index::ENTRY * place.at],
                whole: upper,
            }
        } else {
            Place {
                at: place.at + 1,
                whole: lower,
            }
        }
    }

    // Offers the rows under a node, but those that are passed over. Of a cut the half on whose side of the plane the row is comes first: near rows
    // that are met early let more be passed over.
    fn visit(
        self,
        row: usize,
        place: Place,
        count: usize,
        near: &mut [usize],
        far: &mut [f64],
    ) -> usize
        requires { (t : Cuts) × (visited : List ℕ) × (0 < self.neighbours) × Stands self place t × Offered self row (rows_under t) visited near.old far.old count }
        ensures { (t : Cuts) → Stands self.entry place t → Offers self.entry row (rows_under t) near.old far.old count near.new far.new result }
    {
        if self.passes_over(row, place, count, near, far) {
            return count;
        }
        match node::node_at(self.filed.cuts, self.filed.planes, place.at) {
            Node::Leaf(number) => {
                let rows = self.leaf_rows(number);
                self.offer_leaf(row, rows, count, near, far)
            }
            Node::Cut { axis, plane } => {
                let right = plane < self.points.coordinate(row, axis);
                let first = self.half(place, axis, plane, right);
                let count = self.visit(row, first, count, near, far);
                let second = self.half(place, axis, plane, !right);
                self.visit(row, second, count, near, far)
            }
        }
    }

    // Of the active rows but `row` itself, as many as the neighbour count that are first by (squared distance to `row`, row), or all if
    // fewer: their positions in the active list go to the front of `near`, in that order, and their squared distances to the front of `far`. The
    // answer is how many they are, and all of it is as a scan's.
    pub fn nearest(self, row: usize, near: &mut [usize], far: &mut [f64]) -> usize
        requires { Searchable self × GoodRow self.points.dimensions self.points.coordinates.now row × (self.neighbours ≤ length near.old) × (self.neighbours ≤ length far.old) }
        ensures { (result ≤ self.entry.neighbours) × FoundFor self.entry row (take result near.new) (take result far.new) }
    {
        if self.neighbours == 0 {
            return 0;
        }
        let root = Place {
            at: 0,
            whole: self.whole,
        };
        self.visit(row, root, 0, near, far)
    }
}
