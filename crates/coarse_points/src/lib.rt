// The rows that the leaves of a level send up: the active rows of the next level.
#![tactic(auto)]

ghost use Rattle.std.specs.Prelude.{◌≡◌, ◌+◌, ◌*◌, ◌≤◌, ◌<◌, length};
ghost use Rattle.lists.specs.Lists.{total, part};
ghost use Rattle.definition.specs.Quotas.{quotas_for};
ghost use Rattle.definition.specs.Sampling.{sent_by, leaf_cover};
ghost use Rattle.definition.specs.Packed.{row_numbers};
ghost use Rattle.definition.specs.Refusals.{most_points};
ghost use Rattle.rows.specs.Rows.{GoodRows};
ghost use Rattle.packed.specs.View.{own_of};
ghost use Rattle.coarse_points.specs.Sent.{sent_rows, sent_covers, counts_at, sent_at, covers_at, SendsUp, LeavesFit};
ghost use Rattle.tree_lists.specs.Lent.{SameRoom};

use packed::LevelLeaves;
use points::Points;
use tree_lists::Room;

// Fills `shares` with the sizes of the leaves: each stands among the other numbers of its domain row, so that there is no stretch to be
// copied.
fn copy_sizes(leaves: LevelLeaves<'_>, shares: &mut [usize])
    requires { (row_numbers * (leaves.first + leaves.count) ≤ length leaves.domains.now) × (length shares.old ≡ leaves.count) }
    ensures { shares.new ≡ counts_at leaves.entry.domains.now leaves.entry.first leaves.entry.count }
{
    for (l, size) in shares.iter_mut().enumerate() {
        *size = leaves.row(l).internal_count;
    }
}

// Fills `shares` with the quotas of the leaves, which have `a` rows in all: `size` of the rows go up.
fn leaf_quotas(leaves: LevelLeaves<'_>, a: usize, size: usize, shares: &mut [usize])
    requires { (row_numbers * (leaves.first + leaves.count) ≤ length leaves.domains.now) × (length shares.old ≡ leaves.count)
        × (a ≡ total (counts_at leaves.domains.now leaves.first leaves.count)) × (a ≤ most_points) × (size ≤ a) }
    ensures { shares.new ≡ quotas_for (counts_at leaves.entry.domains.now leaves.entry.first leaves.entry.count) size }
{
    copy_sizes(leaves, shares);
    quotas::share_in_place(shares, a, size);
}

// Fills `sent` with rows of a leaf, chosen from the row nearest their centroid on. Gives the cover of what is sent: +infinity where there
// are rows and none is sent, +0 where there are none.
fn sample_leaf(points: Points<'_>, rows: &[usize], sent: &mut [usize], floats: &mut [f64]) -> f64
    requires rows { GoodRows points.dimensions points.coordinates.now rows.now }
    requires few { (points.dimensions ≤ 3) × (length sent.old ≤ length rows.now) }
    requires room { length rows.now ≤ length floats.old }
    ensures sent { sent.new ≡ sent_by points.entry.dimensions points.entry.coordinates.now rows.now (length sent.old) }
    ensures cover { result ≡ leaf_cover points.entry.dimensions points.entry.coordinates.now rows.now (sent_by points.entry.dimensions points.entry.coordinates.now rows.now (length sent.old)) }
{
    if rows.is_empty() {
        return 0.0;
    }
    if sent.is_empty() {
        return f64::INFINITY;
    }
    let seed = sampling_seed::sampling_seed(points, rows);
    sampling_rounds::sample_rows(points, rows, seed, sent, floats)
}

// Fills `sent` with what each of the leaves sends up, leaf after leaf, and `covers` with the covers of that. The floats are the room to
// sample in.
fn send_leaves(
    points: Points<'_>,
    leaves: LevelLeaves<'_>,
    shares: &[usize],
    sent: &mut [usize],
    floats: &mut [f64],
    covers: &mut [f64],
)
    requires leaves { LeavesFit points.dimensions points.coordinates.now leaves.internals.now leaves.domains.now leaves.first leaves.count shares.now (length sent.old) (length floats.old) }
    requires room { length covers.old ≡ leaves.count }
    ensures sent { sent.new ≡ sent_at points.entry.dimensions points.entry.coordinates.now leaves.entry.internals.now leaves.entry.domains.now leaves.entry.first shares.now leaves.entry.count }
    ensures covers { covers.new ≡ covers_at points.entry.dimensions points.entry.coordinates.now leaves.entry.internals.now leaves.entry.domains.now leaves.entry.first shares.now leaves.entry.count }
{
    let mut start = 0;
    for (l, &quota) in shares.iter().enumerate() {
        let end = start + quota;
        // by the index: tried as a zip with `covers.iter_mut()`, of which a proof does not know what was written; and where a leaf's part
        // starts goes along
        covers[l] = sample_leaf(points, leaves.own(l), &mut sent[start..end], floats);
        start = end;
    }
}

// Of the leaves, which share out the active rows, each sends its quota of its own rows up, as many in all as `sent` has room for. They are
// left there, sorted, and the covers of the leaves behind as many floats of the room as there are active rows.
pub fn coarse_points(
    points: Points<'_>,
    active: &[usize],
    leaves: LevelLeaves<'_>,
    sent: &mut [usize],
    room: &mut Room<'_>,
)
    requires rows { SendsUp points.dimensions points.coordinates.now active.now leaves.internals.now leaves.domains.now leaves.first leaves.count }
    requires room { (length sent.old ≤ length active.now) × (leaves.count ≤ length room.old.wholes.now) × (length active.now + leaves.count ≤ length room.old.floats.now) }
    ensures same { SameRoom room.old room.new }
    ensures list { sent.new ≡ sent_rows points.entry.dimensions points.entry.coordinates.now active.now (own_of leaves.entry) (length sent.old) }
    ensures covers { part room.new.floats.now (length active.now) leaves.entry.count ≡ sent_covers points.entry.dimensions points.entry.coordinates.now (own_of leaves.entry) (length sent.old) }
{
    let floats: &mut [f64] = room.floats;
    let shares: &mut [usize] = &mut room.wholes[..leaves.count];
    let a = active.len();
    leaf_quotas(leaves, a, sent.len(), shares);
    let (sampled, covers) = floats.split_at_mut(a);
    send_leaves(
        points,
        leaves,
        shares,
        sent,
        sampled,
        &mut covers[..leaves.count],
    );
    sort::sort(sent);
}
