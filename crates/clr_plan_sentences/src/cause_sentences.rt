//! The cause of a no in words: its rows, and where they stand.

ghost use Rattle.std.specs.Prelude.{◌≡◌, ◌++◌, IfOk, OnOk, string_bytes};
ghost use Rattle.clr_plan_sentences.specs.Causes.{IsCause, conflict_cause, conflict_reason, counted_text, need_reason};
ghost use Rattle.clr_plan_sentences.specs.Causes.{others_text, reason_text, shared_cause, shared_reason};
ghost use Rattle.clr_plan_sentences.specs.NeedCauses.{no_cause};
ghost use Rattle.clr_serving_rows.specs.NeedPlaces.{rule_in};
ghost use Rattle.clr_merge_sets.specs.MemberChanges.{AreMembers, set_of};

use crate::labels::add_label;
use crate::need_causes::rule_reason;
use crate::settings::Setting;
use crate::told_rows::{CauseWords, RowWords};
use clr_clearance::Verdict;
use clr_needs::Need;
use clr_rows::{CellId, List, Words};
use clr_serving_rows::rule_of;
use std::alloc::{AllocError, Global};

/// Returns a cause of which nothing is told.
pub(crate) fn no_cause(alloc: Global) -> CauseWords
    ensures { result ≡ no_cause }
{
    CauseWords {
        reason: Words::new(String::new(alloc)),
        rows: List::new(Vec::new(alloc)),
        place: Words::new(String::new(alloc)),
    }
}

/// Adds how many rows are in conflict.
fn add_counted(text: &mut String, count: usize) -> Result<(), AllocError>
    ensures { OnOk result (string_bytes text.new ≡ string_bytes text.old ++ counted_text count) }
{
    text.push_str(", and so were others: ")?;
    write!(text, "{count}")?;
    text.push_str(" rows in all")?;
    Ok(())
}

/// Adds how many rows are in conflict, if more than one is.
fn add_others(text: &mut String, count: usize) -> Result<(), AllocError>
    ensures { OnOk result (string_bytes text.new ≡ string_bytes text.old ++ others_text count) }
{
    if count <= 1 {
        Ok(())
    } else {
        add_counted(text, count)
    }
}

impl Setting<'_> {
    /// Returns that a cell was changed in the root after a member took it over.
    fn conflict_reason(
        &self,
        cell: CellId,
        member: usize,
        count: usize,
    ) -> Result<String, AllocError>
        ensures { IfOk result (λ text. string_bytes text
            ≡ conflict_reason self.now.office.now (set_of self.now.members.now) cell member count) }
    {
        let mut text = String::new(self.alloc);
        add_label(&mut text, self.office.schema(), cell)?;
        text.push_str(" was changed in ")?;
        text.push_str(self.members.root)?;
        text.push_str(" after ")?;
        text.push_str(self.members.name(member))?;
        text.push_str(" took it over")?;
        add_others(&mut text, count)?;
        text.push_str(".\n")?;
        Ok(text)
    }

    /// Returns that two members change a cell.
    fn shared_reason(&self, cell: CellId, first: usize, second: usize) -> Result<String, AllocError>
        ensures { IfOk result (λ text. string_bytes text
            ≡ shared_reason self.now.office.now (set_of self.now.members.now) cell first second) }
    {
        let mut text = String::new(self.alloc);
        text.push_str(self.members.name(first))?;
        text.push_str(" and ")?;
        text.push_str(self.members.name(second))?;
        text.push_str(" both change ")?;
        add_label(&mut text, self.office.schema(), cell)?;
        text.push_str(", so that the merge of the second would meet a conflict.\n")?;
        Ok(text)
    }

    /// Returns what a member took over, what the root has now and what the member has, of a cell in
    /// conflict.
    fn conflict_rows(&self, cell: CellId, member: usize) -> Result<Vec<RowWords>, AllocError>
        ensures { IfOk result (λ rows. rows.items ≡ (conflict_cause self.now.office.now (set_of self.now.members.now)
            self.now.members.now.changes.items cell member 0).rows) }
    {
        let mut rows = Vec::new(self.alloc);
        rows.push(self.row_taken_over(cell, member)?)?;
        rows.push(self.row_now(cell)?)?;
        rows.push(self.row_of_member(cell, member)?)?;
        Ok(rows)
    }

    /// Returns what the root has and what two members make of it, of a cell that both change.
    fn shared_rows(
        &self,
        cell: CellId,
        first: usize,
        second: usize,
    ) -> Result<Vec<RowWords>, AllocError>
        ensures { IfOk result (λ rows. rows.items ≡ (shared_cause self.now.office.now (set_of self.now.members.now)
            self.now.members.now.changes.items cell first second).rows) }
    {
        let mut rows = Vec::new(self.alloc);
        rows.push(self.row_now(cell)?)?;
        rows.push(self.row_of_member(cell, first)?)?;
        rows.push(self.row_of_member(cell, second)?)?;
        Ok(rows)
    }

    /// Returns why members are blocked of which one is in conflict with the root.
    fn conflict_cause(
        &self,
        cell: CellId,
        member: usize,
        count: usize,
    ) -> Result<CauseWords, AllocError>
        ensures { IfOk result (λ cause. cause ≡ conflict_cause self.now.office.now (set_of self.now.members.now)
            self.now.members.now.changes.items cell member count) }
    {
        Ok(CauseWords {
            reason: Words::new(self.conflict_reason(cell, member, count)?),
            rows: List::new(self.conflict_rows(cell, member)?),
            place: Words::new(String::new(self.alloc)),
        })
    }

    /// Returns why members are blocked of which two change a cell.
    fn shared_cause(
        &self,
        cell: CellId,
        first: usize,
        second: usize,
    ) -> Result<CauseWords, AllocError>
        ensures { IfOk result (λ cause. cause ≡ shared_cause self.now.office.now (set_of self.now.members.now)
            self.now.members.now.changes.items cell first second) }
    {
        Ok(CauseWords {
            reason: Words::new(self.shared_reason(cell, first, second)?),
            rows: List::new(self.shared_rows(cell, first, second)?),
            place: Words::new(String::new(self.alloc)),
        })
    }

    /// Returns why members are blocked. Nothing is told of a verdict that blocks none.
    pub fn cause_words(&self, verdict: &Verdict) -> Result<CauseWords, AllocError>
        ensures { IfOk result (λ cause. AreMembers self.now.office.now (set_of self.now.members.now) self.now.members.now
            → IsCause self.now.office.now (set_of self.now.members.now) self.now.members.now.changes.items verdict.now cause) }
    {
        match verdict {
            Verdict::Conflict {
                member,
                cell,
                count,
            } => {
                let cause = self.conflict_cause(*cell, *member, *count)?;
                Ok(cause)
            }
            Verdict::SharedCell {
                cell,
                first,
                second,
            } => {
                let cause = self.shared_cause(*cell, *first, *second)?;
                Ok(cause)
            }
            Verdict::Uncovered(need) => self.need_cause(need),
            _ => Ok(no_cause(self.alloc)),
        }
    }

    /// Returns the rule that a need asks for and nothing serves, as a sentence.
    fn need_reason(&self, need: &Need) -> Result<String, AllocError>
        ensures { IfOk result (λ text. string_bytes text
            ≡ need_reason self.now.office.now.schema need.now.rule (rule_in self.now.office.now need.now)) }
    {
        match rule_of(self.office, need) {
            Some(rule) => rule_reason(self.alloc, self.office.schema(), need.rule, rule),
            None => Ok(String::new(self.alloc)),
        }
    }

    /// Returns why members are blocked, without the rows; nothing of a verdict that blocks none. It looks at no member's changes.
    pub fn reason(&self, verdict: &Verdict) -> Result<String, AllocError>
        ensures { IfOk result (λ text. string_bytes text ≡ reason_text self.now.office.now (set_of self.now.members.now) verdict.now) }
    {
        match verdict {
            Verdict::Conflict {
                member,
                cell,
                count,
            } => self.conflict_reason(*cell, *member, *count),
            Verdict::SharedCell {
                cell,
                first,
                second,
            } => self.shared_reason(*cell, *first, *second),
            Verdict::Uncovered(need) => self.need_reason(need),
            _ => Ok(String::new(self.alloc)),
        }
    }
}
