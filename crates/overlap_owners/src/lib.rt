// The leaf of each active row, by the row's position in the active list, and the positions of the leaves' own rows.
#![tactic(auto)]

ghost use Rattle.std.specs.Prelude.{◌≡◌, ℕ, ◌<◌, ◌≤◌, length, get_or};
ghost use mathlib.Core.List.{Memᴰ};
ghost use Rattle.lists.specs.Lists.{joined};
ghost use Rattle.lists.specs.Ascends.{Ascends};
ghost use Rattle.packed.specs.View.{own_of};
ghost use Rattle.cut_index.specs.Filed.{positions_of};
ghost use Rattle.overlap_owners.specs.Own.{Leaves, Written, Owned};

use packed::LevelLeaves;

// The position of a row in an ascending list that holds it, by bisection.
pub fn position(active: &[usize], row: usize) -> usize
    requires { Ascends active.now × Memᴰ row active.now }
    ensures { (result < length active.now) × (get_or active.now result 0 ≡ row) }
{
    active.partition_point(|other| *other < row)
}

// Writes the leaf at the position of each of these rows, and the positions to their list.
fn mark_leaf(
    active: &[usize],
    rows: &[usize],
    leaf: usize,
    wholes: &mut [usize],
    positions: &mut [usize],
)
    requires rows { Ascends active.now × (length active.now ≤ length wholes.old) × ((row : ℕ) → Memᴰ row rows.now → Memᴰ row active.now) }
    requires room { length positions.old ≡ length rows.now }
    ensures marked { Written active.now rows.now leaf wholes.old wholes.new }
    ensures positions { positions.new ≡ positions_of active.now rows.now }
{
    // by the index: tried as a zip with `positions.iter_mut()`, of which a proof does not know what was written
    for (k, &row) in rows.iter().enumerate() {
        let at = position(active, row);
        wholes[at] = leaf;
        positions[k] = at;
    }
}

// The leaf of each active row, at the front of `wholes`, and the position of each own row, leaf by leaf: in the order in which the own rows stand
// where they are packed.
pub fn owners(
    active: &[usize],
    leaves: LevelLeaves<'_>,
    wholes: &mut [usize],
    positions: &mut [usize],
)
    requires leaves { Leaves active.now leaves.internals.now leaves.domains.now leaves.first leaves.count }
    requires room { (length active.now ≤ length wholes.old) × (length positions.old ≡ length active.now) }
    ensures owned { Owned active.now (own_of leaves.entry) wholes.new }
    ensures positions { positions.new ≡ positions_of active.now (joined (own_of leaves.entry)) }
{
    let mut start = 0;
    for leaf in 0..leaves.count {
        let rows = leaves.own(leaf);
        let end = start + rows.len();
        mark_leaf(active, rows, leaf, wholes, &mut positions[start..end]);
        start = end;
    }
}
