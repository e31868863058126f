// The domain records of a stored tree's level, tested one after the other in the caller's bytes. The level's rows go along, those that no
// domain so far has and all that the level lists.
#![tactic(auto)]

ghost use Rattle.std.specs.Prelude.{Bool, ℕ, ◌≤◌, length};
ghost use Rattle.marks.specs.Bits.{Marked};
ghost use Rattle.row_sets.specs.Lent.{SameSets};
ghost use Rattle.row_sets.specs.Tested.{LeftIsListed};
ghost use Rattle.file_domains.specs.Domains.{DomainPassed, DomainsPassed};

use file_reader::FileReader;
use file_rows::FileRows;
use leaf_depths::LeafLevel;
use leaf_tests::LeavesPassed;
use row_sets::LevelRows;

// Records that pass: where what comes after them starts, how many borrowed rows they have, and how far the leaves of their level have passed.
#[derive(Clone, Copy)]
pub struct Passed {
    pub next: usize,
    pub borrowed: usize,
    pub leaves: LeavesPassed,
}

// Whether the domain record at a place stands there whole and passes behind those that have. Takes its own rows out of those left.
pub fn check_domain(
    bytes: &[u8],
    at: usize,
    dimensions: usize,
    level: LeafLevel,
    before: LeavesPassed,
    sets: &mut LevelRows<'_>,
) -> Option<Passed>
    requires { (dimensions ≤ 3) × (at ≤ length bytes.now) × LeftIsListed sets.old.left.now sets.old.listed.now }
    ensures same { SameSets sets.old sets.new }
    ensures tested { (p q : ℕ → Bool) → Marked sets.old.left.now p → Marked sets.old.listed.now q
        → DomainPassed bytes.now at dimensions level.coarse level.rows before.least before.remaining p q sets.new.left.now sets.new.listed.now result }
{
    let floats = file_reader::record_floats(dimensions, level.coarse);
    let reader = FileReader { bytes, at };
    let f = reader.domain(bytes_in::FLOAT * floats)?;
    if before.remaining < f.own {
        return None;
    }
    let own = FileRows {
        bytes,
        at: f.own_at,
        count: f.own,
    };
    let borrowed = FileRows {
        bytes,
        at: f.borrowed_at,
        count: f.borrowed,
    };
    let depth = bytes_in::number_at(bytes, f.depth_at);
    let leaves = leaf_tests::check_leaf(level, before, &own, &borrowed, depth, sets)?;
    if !bytes_in::no_nan_at(bytes, f.bounds_at, floats) {
        return None;
    }
    Some(Passed {
        next: f.next,
        borrowed: f.borrowed,
        leaves,
    })
}

// Whether m domain records from a place on stand there whole and pass, and have each row of the level once. A number of records, and no slice: each
// has its own length. This loop and that of list_domains stay two: this one carries the place of the next record and a sum of borrowed rows, that
// one where the next two stretches start, and a loop over both would be passed a closure whose contract says either.
pub fn check_domains(
    bytes: &[u8],
    at: usize,
    m: usize,
    dimensions: usize,
    level: LeafLevel,
    sets: &mut LevelRows<'_>,
) -> Option<Passed>
    requires { (dimensions ≤ 3) × (at ≤ length bytes.now) × LeftIsListed sets.old.left.now sets.old.listed.now }
    ensures same { SameSets sets.old sets.new }
    ensures tested { (p q : ℕ → Bool) → Marked sets.old.left.now p → Marked sets.old.listed.now q
        → DomainsPassed bytes.now at m dimensions level.coarse level.rows p q sets.new.listed.now result }
{
    let mut next = at;
    let mut borrowed = 0;
    let mut leaves = LeavesPassed {
        remaining: level.rows,
        least: 0,
    };
    for _i in 0..m {
        let f = check_domain(bytes, next, dimensions, level, leaves, sets)?;
        next = f.next;
        borrowed += f.borrowed;
        leaves = f.leaves;
    }
    if leaves.remaining != 0 {
        return None;
    }
    Some(Passed {
        next,
        borrowed,
        leaves,
    })
}
