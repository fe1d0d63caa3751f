//! What serves the needs of a cleared set, in words.

ghost use Rattle.std.specs.Prelude.{◌≡◌, ◌++◌, IfOk, OnOk, string_bytes};
ghost use Rattle.std.specs.Option.{option_copied};
ghost use Rattle.clr_plan_sentences.specs.NeedCauses.{numbered_text};
ghost use Rattle.clr_serving_rows.specs.NeedPlaces.{rule_in};
ghost use Rattle.clr_plan_sentences.specs.Changers.{changer_name};
ghost use Rattle.clr_plan_sentences.specs.ServedNeeds.{later_text, second_subject_text, title_text, told_need};
ghost use Rattle.clr_plan_sentences.specs.Labels.{cell_label};
ghost use Rattle.clr_merge_sets.specs.MemberChanges.{set_of};

use crate::labels::add_label;
use crate::need_causes::add_numbered;
use crate::settings::Setting;
use clr_cert::Entry;
use clr_member_changes::MemberChanges;
use clr_needs::{Need, VersionId};
use clr_phrases::rule_title;
use clr_rows::{CellId, Schema, Words};
use clr_rules::Rule;
use clr_serving_rows::rule_of;
use std::alloc::AllocError;

/// A need in words: its rule, the rows that ask, and the rows that serve it, with until when.
#[derive(Drop)]
pub struct NeedWords {
    pub rule: Words,
    pub rows: Words,
    pub servers: Words,
}

/// Returns what a rule is about, or nothing where there is none.
fn title_of(rule: Option<&Rule>) -> &'static str
    ensures { result.now ≡ title_text (option_copied rule.entry) }
{
    match rule {
        Some(rule) => rule_title(rule),
        None => "",
    }
}

/// Adds the second row that asks, if there is one.
fn add_second_subject(
    text: &mut String,
    schema: &Schema,
    second: Option<VersionId>,
) -> Result<(), AllocError>
    ensures { OnOk result (string_bytes text.new ≡ string_bytes text.old ++ second_subject_text schema.now second) }
{
    match second {
        Some(version) => {
            text.push_str(" and ")?;
            add_label(text, schema, version.cell)
        }
        None => Ok(()),
    }
}

/// Returns the name of the first member that changes a cell, or an empty one where none does.
pub(crate) fn changer_name<'a>(members: &'a MemberChanges<'_>, cell: CellId) -> &'a str
    ensures { result.now ≡ changer_name (set_of members.entry.now).members members.entry.now.changes.items cell }
{
    match members.changer_of(cell) {
        Some(at) => members.name(at),
        None => "",
    }
}

/// Adds the row that serves once the member that brings it is merged, if there is one.
fn add_later(
    text: &mut String,
    schema: &Schema,
    members: &MemberChanges<'_>,
    later: Option<VersionId>,
) -> Result<(), AllocError>
    ensures { OnOk result (string_bytes text.new ≡ string_bytes text.old
        ++ later_text schema.now (set_of members.now).members members.now.changes.items later) }
{
    match later {
        Some(version) => {
            text.push_str(" until ")?;
            text.push_str(changer_name(members, version.cell))?;
            text.push_str(" is merged, and then by ")?;
            add_label(text, schema, version.cell)?;
            Ok(())
        }
        None => Ok(()),
    }
}

impl Setting<'_> {
    /// Returns the number of a need's rule, and what the rule is about.
    fn rule_words(&self, need: &Need) -> Result<String, AllocError>
        ensures { IfOk result (λ text. string_bytes text ≡ numbered_text need.now.rule (title_text (rule_in self.now.office.now need.now))) }
    {
        let mut text = String::new(self.alloc);
        let title = title_of(rule_of(self.office, need));
        add_numbered(&mut text, need.rule, title)?;
        Ok(text)
    }

    /// Returns the rows that ask.
    fn subject_words(&self, need: &Need) -> Result<String, AllocError>
        ensures { IfOk result (λ text. string_bytes text
            ≡ cell_label self.now.office.now.schema need.now.first.cell ++ second_subject_text self.now.office.now.schema need.now.second) }
    {
        let mut text = self.cell_label(need.first.cell)?;
        add_second_subject(&mut text, self.office.schema(), need.second)?;
        Ok(text)
    }

    /// Returns which rows serve, and until when.
    fn witness_words(&self, entry: &Entry) -> Result<String, AllocError>
        ensures { IfOk result (λ text. string_bytes text ≡ cell_label self.now.office.now.schema entry.now.one.cell
            ++ later_text self.now.office.now.schema (set_of self.now.members.now).members self.now.members.now.changes.items entry.now.two) }
    {
        let mut text = self.cell_label(entry.one.cell)?;
        add_later(&mut text, self.office.schema(), self.members, entry.two)?;
        Ok(text)
    }

    /// Returns a need, and what serves it.
    pub fn need_words(&self, entry: &Entry) -> Result<NeedWords, AllocError>
        ensures { IfOk result (λ words. words
            ≡ told_need self.now.office.now (set_of self.now.members.now).members self.now.members.now.changes.items entry.now) }
    {
        Ok(NeedWords {
            rule: Words::new(self.rule_words(&entry.need)?),
            rows: Words::new(self.subject_words(&entry.need)?),
            servers: Words::new(self.witness_words(entry)?),
        })
    }
}
