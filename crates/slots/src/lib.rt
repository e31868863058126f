// What the exported functions write to their result slots, and return: one small function for each kind of answer. Each slot is a list of plain
// numbers, and a refusal a number that is returned, as the C interface has them.
#![tactic(auto)]

ghost use Rattle.std.specs.Prelude.{◌≡◌, ◌∷◌, ◌++◌, ℕ, ◌≤◌, length};
ghost use Rattle.lists.specs.Lists.{put};
ghost use Rattle.refusal.specs.Refusals.{answer_of};
ghost use Rattle.build_sizes.specs.Sizes.{sizes_report};
ghost use Rattle.config.specs.Params.{settings_of_lem};
ghost use Rattle.tree_answer.specs.Answers.{counts_given, tree_answer_lem};
ghost use Rattle.slots.specs.Settings.{settings_from};
ghost use Rattle.slots.specs.Slots.{sizes_slot, build_slot, counts_in, placed_slot, head_given, head_written, version_number, PutValue};
ghost use Rattle.table_checks.specs.Tables.{head_in};

use build_sizes::BuildSizes;
use config::{DDMParams, SizePolicy};
use refusal::{Refusal, Report};
use table_checks::Head;
use tree_answer::DDMTree;

// The version, 0.9.0, as one number: major, minor and patch, with two digits for each of the last two.
pub fn version() -> usize
    ensures { result ≡ version_number 0 9 0 }
{
    900
}

// How many entries a slot has: of a pair, as a place and a value; of the lengths of a build's lists; and of a tree, which are its place, its levels,
// and the rows and the domains of each level.
pub const PAIR: usize = 2;

pub const SIZES: usize = 9;

pub const TREE: usize = 10;

// The value that a call answers, to the front of a slot: a zero where the call is refused. What it returns is the refusal's number.
pub fn put_value<T: Copy + Default>(res: &mut [T], answer: Result<T, Refusal>) -> usize
    requires { 1 ≤ length res.old }
    ensures { PutValue T.is_default answer res.old res.new result }
{
    let told = Report::of(answer);
    res[0] = told.value;
    told.number
}

// The place of a refusal, and the number that an accepted call answers, to the front of a slot. What it returns is the refusal's number.
pub fn put_placed(res: &mut [usize], answer: Result<usize, Refusal>) -> usize
    requires { 2 ≤ length res.old }
    ensures slot { res.new ≡ put res.old 0 (placed_slot (answer_of (λ x. x) 0 answer)) }
    ensures number { result ≡ (answer_of (λ x. x) 0 answer).number }
{
    let told = Report::of(answer);
    stretches::put_values(res, 0, &[told.place, told.value]);
    told.number
}

// The nine lengths that a build is to be lent, to the front of a slot: 0 where the call is refused. What it returns is the refusal's number.
pub fn put_sizes(res: &mut [usize], answer: Result<BuildSizes, Refusal>) -> usize
    requires { 9 ≤ length res.old }
    ensures slot { res.new ≡ put res.old 0 (sizes_slot (sizes_report answer)) }
    ensures number { result ≡ (sizes_report answer).number }
{
    let told = Report::of(answer);
    stretches::put_values(res, 0, &told.value.lengths());
    told.number
}

// The settings, from the numbers of the call. It is no `From`: C hands over five plain numbers, which are no value of their own.
pub fn params_of(leaf: u32, neighbours: u32, factor: u32, policy: u32, threshold: u32) -> DDMParams
    ensures { (d : ℕ) → settings_of_lem d result ≡ settings_from d leaf neighbours factor policy threshold }
{
    DDMParams {
        leaf_threshold: leaf,
        overlap_knn: neighbours,
        coarse_reduction_factor: factor,
        coarse_threshold: SizePolicy::of(policy as usize, threshold),
    }
}

// A place, and a tree's levels with the rows and the domains of each, to the front of a slot.
pub fn put_counts(res: &mut [usize], place: usize, counts: DDMTree)
    requires { 10 ≤ length res.old }
    ensures { res.new ≡ put res.old 0 (place ∷ counts.levels ∷ counts.rows ++ counts.domains) }
{
    let DDMTree {
        levels,
        rows,
        domains,
    } = counts;
    stretches::put_values(res, 0, &[place, levels]);
    stretches::put_values(res, 2, &rows);
    stretches::put_values(res, 6, &domains);
}

// What a build or a load answers, to the front of a slot: place, levels, the rows of each level and the domains of each level, which are 0
// where the call is refused. What it returns is the refusal's number.
pub fn put_tree(res: &mut [usize], answer: Result<DDMTree, Refusal>) -> usize
    requires { 10 ≤ length res.old }
    ensures slot { res.new ≡ put res.old 0 (build_slot (tree_answer_lem answer)) }
    ensures number { result ≡ (tree_answer_lem answer).number }
{
    let told = Report::of(answer);
    put_counts(res, told.place, told.value);
    told.number
}

// The counts of a tree, from the slot that a build or a load wrote. It is no `From`, which takes no `requires`: a slot is a list of any length.
pub fn counts_from(tree: &[usize]) -> DDMTree
    requires { 10 ≤ length tree.now }
    ensures { counts_given result ≡ counts_in tree.now }
{
    DDMTree {
        levels: tree[1],
        rows: [tree[2], tree[3], tree[4], tree[5]],
        domains: [tree[6], tree[7], tree[8], tree[9]],
    }
}

// A table's head, from the two numbers that C keeps it in, and back to them. It is no `From`: neither type is this crate's.
pub fn head_from(numbers: &[usize; 2]) -> Head
    ensures { head_in result ≡ head_given numbers.now }
{
    Head {
        slots: numbers[0],
        live: numbers[1],
    }
}

pub fn put_head(numbers: &mut [usize; 2], head: Head)
    ensures { numbers.new ≡ head_written (head_in head) numbers.old }
{
    numbers[0] = head.slots;
    numbers[1] = head.live;
}
