//! A plan in sentences, line by line.

ghost use Rattle.std.specs.Prelude.{◌≡◌, ◌++◌, IfOk, OnOk, string_bytes, take};
ghost use Rattle.std.specs.List.{flat_map};
ghost use Rattle.clr_plan_sentences.specs.Sentences.{AreCauseLines, AreDetails, IsSentences, cause_lines};
ghost use Rattle.clr_plan_sentences.specs.Sentences.{cleared_details, counts_text, entry_line, entry_lines};
ghost use Rattle.clr_plan_sentences.specs.Sentences.{member_line, members_text, more_text, need_line, needs_text};
ghost use Rattle.clr_plan_sentences.specs.Sentences.{row_lines, some_needs_text, told_details, verdict_text};
ghost use Rattle.clr_merge_sets.specs.MemberChanges.{AreMembers, set_of};

use crate::served_needs::NeedWords;
use crate::settings::Setting;
use crate::told_rows::{CauseWords, RowWords};
use clr_cert::Entry;
use clr_change::ChangeSet;
use clr_clearance::Verdict;
use clr_member_changes::{Counts, MemberChanges, count_rows};
use clr_merge_sets::Plan;
use clr_plan_answers::answer_words;
use std::alloc::AllocError;

/// How many needs of a certificate are told one by one.
pub const MOST_NEEDS: usize = 12;

/// Adds a row of a cause, on two lines.
fn add_row(text: &mut String, row: &RowWords) -> Result<(), AllocError>
    ensures { OnOk result (string_bytes text.new ≡ string_bytes text.old ++ row_lines row.now) }
{
    let label = row.label.as_str();
    text.push_str("  ")?;
    write!(text, "{label:<14}")?;
    text.push_str(" ")?;
    text.push_str(row.standing.as_str())?;
    text.push_str("\n                 ")?;
    text.push_str(row.words.as_str())?;
    text.push_str("\n")?;
    Ok(())
}

/// Adds rows of a cause, on two lines each.
fn add_rows(text: &mut String, rows: &[RowWords]) -> Result<(), AllocError>
    ensures { OnOk result (string_bytes text.new ≡ string_bytes text.old ++ flat_map row_lines rows.now) }
{
    for row in rows {
        add_row(text, row)?;
    }
    Ok(())
}

/// Adds the cause of a no: why, its rows on two lines each, and where they meet.
fn add_cause(text: &mut String, cause: &CauseWords) -> Result<(), AllocError>
    ensures { OnOk result (string_bytes text.new ≡ string_bytes text.old ++ cause_lines cause.now) }
{
    text.push_str("\n")?;
    text.push_str(cause.reason.as_str())?;
    add_rows(text, cause.rows.as_slice())?;
    text.push_str(cause.place.as_str())?;
    Ok(())
}

/// Adds how many rows are added, changed and removed.
fn add_counts(text: &mut String, counts: Counts) -> Result<(), AllocError>
    ensures { OnOk result (string_bytes text.new ≡ string_bytes text.old ++ counts_text counts) }
{
    let added = counts.added;
    let changed = counts.changed;
    let removed = counts.removed;
    write!(text, "{added}")?;
    text.push_str(" added, ")?;
    write!(text, "{changed}")?;
    text.push_str(" changed, ")?;
    write!(text, "{removed}")?;
    text.push_str(" removed\n")
}

/// Adds what a member changes, on a line.
fn add_member(
    text: &mut String,
    members: &MemberChanges<'_>,
    at: usize,
    set: &ChangeSet,
) -> Result<(), AllocError>
    ensures { OnOk result (string_bytes text.new ≡ string_bytes text.old ++ member_line (set_of members.now).members (at, set.now)) }
{
    let name = members.name(at);
    text.push_str("  ")?;
    write!(text, "{name:<14}")?;
    text.push_str(" ")?;
    add_counts(text, count_rows(set))
}

/// Adds what each member changes, a line each.
fn add_members(text: &mut String, members: &MemberChanges<'_>) -> Result<(), AllocError>
    ensures { OnOk result (string_bytes text.new ≡ string_bytes text.old ++ members_text (set_of members.now).members members.now.changes.items) }
{
    let sets = members.changes.as_slice();
    for at in 0..sets.len() {
        add_member(text, members, at, &sets[at])?;
    }
    Ok(())
}

/// Adds a need, and what serves it, on one line.
fn add_need(text: &mut String, need: &NeedWords) -> Result<(), AllocError>
    ensures { OnOk result (string_bytes text.new ≡ string_bytes text.old ++ need_line need.now) }
{
    text.push_str("  ")?;
    text.push_str(need.rule.as_str())?;
    text.push_str(": ")?;
    text.push_str(need.rows.as_str())?;
    text.push_str(", by ")?;
    text.push_str(need.servers.as_str())?;
    text.push_str("\n")?;
    Ok(())
}

/// Adds how many of so many needs aren't told one by one, if there are any.
fn add_more(text: &mut String, count: usize) -> Result<(), AllocError>
    ensures { OnOk result (string_bytes text.new ≡ string_bytes text.old ++ more_text count) }
{
    if count <= MOST_NEEDS {
        return Ok(());
    }
    let more = count - MOST_NEEDS;
    text.push_str("  and ")?;
    write!(text, "{more}")?;
    text.push_str(" more\n")
}

/// Adds how many needs are touched, the lines of those that are told one by one, and how many more there are.
fn add_some_needs(text: &mut String, lines: &str, count: usize) -> Result<(), AllocError>
    ensures { OnOk result (string_bytes text.new ≡ string_bytes text.old ++ some_needs_text lines.now count) }
{
    text.push_str("\nTouched needs: ")?;
    write!(text, "{count}")?;
    text.push_str(". Each is served, whatever is merged first:\n")?;
    text.push_str(lines)?;
    add_more(text, count)
}

/// Adds how many needs are touched, if any are, and their lines.
fn add_needs(text: &mut String, lines: &str, count: usize) -> Result<(), AllocError>
    ensures { OnOk result (string_bytes text.new ≡ string_bytes text.old ++ needs_text lines.now count) }
{
    if count == 0 {
        text.push_str("\nNo rule is touched.\n")
    } else {
        add_some_needs(text, lines, count)
    }
}

/// Returns the words with which a plan begins.
fn verdict_words(plan: &Plan) -> &'static str
    ensures { result.now ≡ verdict_text plan.now }
{
    match plan {
        Plan::Cleared(_) => "CLEARED. ",
        Plan::Blocked { .. } => "NOT CLEARED. ",
        Plan::Unfit(_) => "NOT LOOKED AT. ",
        Plan::OutOfMemory => "",
    }
}

/// Returns the needs that are told one by one.
fn first_needs(entries: &[Entry]) -> &[Entry]
    ensures { result.now ≡ take 12 entries.now }
{
    if entries.len() <= MOST_NEEDS {
        entries
    } else {
        &entries[..MOST_NEEDS]
    }
}

impl Setting<'_> {
    /// Adds a need of a certificate, and what serves it, on one line.
    fn add_entry(&self, text: &mut String, entry: &Entry) -> Result<(), AllocError>
        ensures { OnOk result (string_bytes text.new ≡ string_bytes text.old ++ entry_line self.now.office.now
            (set_of self.now.members.now).members self.now.members.now.changes.items entry.now) }
    {
        let need = self.need_words(entry)?;
        add_need(text, &need)
    }

    /// Returns the first needs of a certificate, a line each.
    fn entry_lines(&self, entries: &[Entry]) -> Result<String, AllocError>
        ensures { IfOk result (λ text. string_bytes text ≡ entry_lines self.now.office.now
            (set_of self.now.members.now).members self.now.members.now.changes.items entries.now) }
    {
        let mut text = String::new(self.alloc);
        let told = first_needs(entries);
        for entry in told {
            self.add_entry(&mut text, entry)?;
        }
        Ok(text)
    }

    /// Returns what each member changes, and what serves the needs.
    fn told_details(&self, entries: &[Entry]) -> Result<String, AllocError>
        ensures { IfOk result (λ text. string_bytes text ≡ told_details self.now.office.now
            (set_of self.now.members.now).members self.now.members.now.changes.items entries.now) }
    {
        let lines = self.entry_lines(entries)?;
        let mut text = String::new(self.alloc);
        text.push_str("\n")?;
        add_members(&mut text, self.members)?;
        add_needs(&mut text, lines.as_str(), entries.len())?;
        Ok(text)
    }

    /// Returns what each member changes, and what serves the needs; nothing where there are no members.
    fn cleared_details(&self, entries: &[Entry]) -> Result<String, AllocError>
        ensures { IfOk result (λ text. string_bytes text ≡ cleared_details self.now.office.now
            (set_of self.now.members.now).members self.now.members.now.changes.items entries.now) }
    {
        if self.members.names.is_empty() {
            Ok(String::new(self.alloc))
        } else {
            self.told_details(entries)
        }
    }

    /// Returns why members are blocked.
    fn cause_details(&self, verdict: &Verdict) -> Result<String, AllocError>
        ensures { IfOk result (λ text. AreMembers self.now.office.now (set_of self.now.members.now) self.now.members.now
            → AreCauseLines self.now.office.now (set_of self.now.members.now) self.now.members.now.changes.items verdict.now (string_bytes text)) }
    {
        let cause = self.cause_words(verdict)?;
        let mut text = String::new(self.alloc);
        add_cause(&mut text, &cause)?;
        Ok(text)
    }

    /// Returns what stands behind the answer of a plan: what each member changes and what serves the needs, or the cause.
    fn details(&self, plan: &Plan) -> Result<String, AllocError>
        ensures { IfOk result (λ text. AreMembers self.now.office.now (set_of self.now.members.now) self.now.members.now
            → AreDetails self.now.office.now (set_of self.now.members.now) self.now.members.now.changes.items plan.now (string_bytes text)) }
    {
        match plan {
            Plan::Cleared(certificate) => self.cleared_details(certificate.entries.as_slice()),
            Plan::Blocked { cause, .. } => self.cause_details(cause),
            Plan::Unfit(_) | Plan::OutOfMemory => Ok(String::new(self.alloc)),
        }
    }
}

/// Returns a plan of members that were read from an office, in sentences, each a line: what it answers, and then the cause, or what
/// each member changes and what serves each need.
pub fn plan_sentences(setting: Setting<'_>, plan: &Plan) -> Result<String, AllocError>
    ensures { IfOk result (λ text. AreMembers setting.entry.office.now (set_of setting.entry.members.now) setting.entry.members.now
        → IsSentences setting.entry.office.now (set_of setting.entry.members.now) plan.now (string_bytes text)) }
{
    let answer = answer_words(setting.alloc, setting.members, plan)?;
    let details = setting.details(plan)?;
    let mut text = String::from_str(setting.alloc, verdict_words(plan))?;
    text.push_str(answer.as_str())?;
    text.push_str(details.as_str())?;
    Ok(text)
}
