// The coarse level of a tree: one domain that holds all active rows.
#![tactic(auto)]

ghost use Rattle.std.specs.Prelude.{◌≡◌, [], ◌∷◌, ◌+◌, ◌*◌, ◌≤◌, length, replicate};
ghost use Rattle.lists.specs.Lists.{put};
ghost use Rattle.definition.specs.Number.{plus_zero};
ghost use Rattle.definition.specs.Packed.{row_numbers, row_floats_lem};
ghost use Rattle.tree_lists.specs.Lent.{SameLeafLists};

use fine_level::Place;
use tree_lists::LeafLists;

// The coarse level at its place: one domain with all active rows, which go to the same place in the internals. It borrows nothing, has no
// box and was never cut: each bound is +0, and so is its cover, and its depth is 0. How many rows are active, their slice says.
pub fn coarse_level(dimensions: usize, place: Place, active: &[usize], lists: &mut LeafLists<'_>)
    requires { (place.from + length active.now ≤ length lists.old.internals.now) × (row_numbers * (place.first + 1) ≤ length lists.old.domains.now) × (row_floats_lem dimensions * (place.first + 1) ≤ length lists.old.boxes.now) × (dimensions ≤ 3) }
    ensures same { SameLeafLists lists.old lists.new }
    ensures internals { lists.new.internals.now ≡ put lists.old.internals.now place.from active.now }
    ensures domains { lists.new.domains.now ≡ put lists.old.domains.now (row_numbers * place.first) (place.from ∷ length active.now ∷ place.bat ∷ 0 ∷ 0 ∷ []) }
    ensures boxes { lists.new.boxes.now ≡ put lists.old.boxes.now (row_floats_lem dimensions * place.first) (replicate (row_floats_lem dimensions) plus_zero) }
{
    let Place {
        from,
        first,
        bat,
        ..
    } = place;
    stretches::put_values(lists.internals, from, active);
    let row = packed::DomainRow {
        internal_start: from,
        internal_count: active.len(),
        borrowed_start: bat,
        borrowed_count: 0,
        depth: 0,
    };
    packed::put_row(lists.domains, first, row);
    boxes::put_zeros(
        lists.boxes,
        packed::floats_before(dimensions, first),
        packed::row_floats(dimensions),
    );
}
