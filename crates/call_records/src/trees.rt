// What a record says of a tree: the answer of the call that made it, and its five lists.
ghost use Rattle.std.specs.Prelude.{◌≡◌, true, drop, IfSome};
ghost use Rattle.refusal.specs.Refusals.{answer_of};
ghost use Rattle.formats.specs.Bytes.{field, number_at, numbers_at, number_size};
ghost use Rattle.tree_lists.specs.Lent.{arrays_held};
ghost use Rattle.tree_answer.specs.Answers.{tree_answer_lem};
ghost use Rattle.call_records.specs.Nines.{nine_lists};
ghost use Rattle.call_records.specs.Reads.{list_left, filled_left, numbers_left};

use crate::fields::Fields;
use crate::fronts::NINE;
use refusal::{Refusal, Report};
use tree_answer::DDMTree;
use tree_lists::{TreeArrays, TreeLists, TreeRead};

// Room for the five lists of a tree in the stored calls: of a build over 16 points with 3 neighbours, and of one over a few points with more.
pub type Lists = TreeArrays<64, 485, 679, 1560>;

// The working room of a build over 16 points with 3 neighbours, and of one over a single point with 65.
pub const FLOATS: usize = 512;

pub const WHOLES: usize = 1152;

// The nodes of the records of a build over 16 points.
pub const NODES: usize = 192;

// Lists that hold 9.
pub fn nines() -> Lists
    ensures { arrays_held result ≡ nine_lists }
{
    Lists::filled(NINE, 9.0)
}

impl<'a> Fields<'a> {
    // Lists of the five lengths that stand next, each a front of the list that is lent. `None` says also that one of those is too short.
    pub fn lend_lists<'r>(&mut self, lists: TreeLists<'r>) -> Option<TreeLists<'r>>
        ensures { IfSome result (λ lent. self.new.rest.now ≡ numbers_left 5 self.old.rest.now) }
    {
        let TreeLists {
            level_points,
            internals,
            domains,
            boxes,
            borrowed,
        } = lists;
        Some(TreeLists {
            level_points: self.lend(level_points)?,
            internals: self.lend(internals)?,
            domains: self.lend(domains)?,
            boxes: self.lend(boxes)?,
            borrowed: self.lend(borrowed)?,
        })
    }

    // The same where the front of each list stands after its length. It is a function of its own: what lends a list is generic over the entries,
    // and no closure is.
    pub fn lend_filled_lists<'r>(&mut self, lists: TreeLists<'r>) -> Option<TreeLists<'r>>
        ensures { IfSome result (λ lent. self.new.rest.now
            ≡ filled_left 8 (filled_left 8 (filled_left 8 (filled_left 8 (filled_left 8 self.old.rest.now))))) }
    {
        let TreeLists {
            level_points,
            internals,
            domains,
            boxes,
            borrowed,
        } = lists;
        Some(TreeLists {
            level_points: self.lend_filled(level_points)?,
            internals: self.lend_filled(internals)?,
            domains: self.lend_filled(domains)?,
            boxes: self.lend_filled(boxes)?,
            borrowed: self.lend_filled(borrowed)?,
        })
    }

    // Whether the number and the place of a refusal stand next, or zeros where there is none.
    pub fn report_agrees<T>(&mut self, report: &Report<T>) -> Option<bool>
        ensures number { IfSome result (λ same. same ≡ true → field 1 0 self.old.rest.now ≡ report.now.number) }
        ensures place { IfSome result (λ same. same ≡ true → number_at 1 self.old.rest.now ≡ report.now.place) }
        ensures left { IfSome result (λ same. same ≡ true → self.new.rest.now ≡ drop 5 self.old.rest.now) }
    {
        Some(self.byte()? as usize == report.number && self.number()? == report.place)
    }

    // Whether the answer of a call stands next. A refused one has no counts. They are compared one by one as they are read, and not by `==` of a
    // tree: where one differs, the rest is not read.
    pub fn answer_agrees(&mut self, answer: Result<DDMTree, Refusal>) -> Option<bool>
        ensures number { IfSome result (λ same. same ≡ true → field 1 0 self.old.rest.now ≡ (tree_answer_lem answer).number) }
        ensures place { IfSome result (λ same. same ≡ true → number_at 1 self.old.rest.now ≡ (tree_answer_lem answer).place) }
        ensures levels { IfSome result (λ same. same ≡ true → number_at 5 self.old.rest.now ≡ (tree_answer_lem answer).value.levels) }
        ensures rows { IfSome result (λ same. same ≡ true → numbers_at 4 0 (drop 9 self.old.rest.now) ≡ (tree_answer_lem answer).value.rows) }
        ensures domains { IfSome result (λ same. same ≡ true → numbers_at 4 0 (drop 25 self.old.rest.now) ≡ (tree_answer_lem answer).value.domains) }
        ensures left { IfSome result (λ same. same ≡ true → self.new.rest.now ≡ drop 41 self.old.rest.now) }
    {
        let report = Report::of(answer);
        let tree = report.value;
        Some(
            self.report_agrees(&report)?
                && self.number()? == tree.levels
                && self.counts()? == tree.rows
                && self.counts()? == tree.domains,
        )
    }

    // The same of a call whose answer is a number, which is 0 where the call is refused.
    pub fn number_agrees(&mut self, answer: Result<usize, Refusal>) -> Option<bool>
        ensures number { IfSome result (λ same. same ≡ true → field 1 0 self.old.rest.now ≡ (answer_of (λ n. n) 0 answer).number) }
        ensures place { IfSome result (λ same. same ≡ true → number_at 1 self.old.rest.now ≡ (answer_of (λ n. n) 0 answer).place) }
        ensures value { IfSome result (λ same. same ≡ true → number_at 5 self.old.rest.now ≡ (answer_of (λ n. n) 0 answer).value) }
        ensures left { IfSome result (λ same. same ≡ true → self.new.rest.now ≡ drop 9 self.old.rest.now) }
    {
        let report = Report::of(answer);
        Some(self.report_agrees(&report)? && self.number()? == report.value)
    }

    // Whether the five lists stand next.
    pub fn lists_agree(&mut self, lists: TreeRead<'_>) -> Option<bool>
        ensures { IfSome result (λ same. same ≡ true → self.new.rest.now
            ≡ list_left 8 (list_left 8 (list_left 8 (list_left 8 (list_left 8 self.old.rest.now))))) }
    {
        Some(
            self.agrees(lists.level_points)?
                && self.agrees(lists.internals)?
                && self.agrees(lists.domains)?
                && self.agrees(lists.boxes)?
                && self.agrees(lists.borrowed)?,
        )
    }
}
