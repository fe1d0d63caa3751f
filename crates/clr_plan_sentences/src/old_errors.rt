//! What is said of a need that is broken already.

ghost use Rattle.std.specs.Prelude.{◌≡◌, ◌++◌, IfOk, OnOk, option_map, string_bytes};
ghost use Rattle.clr_plan_sentences.specs.OldErrors.{asked_anew, change_words, changed_rows, is_old, left_words, need_at, old_text};
ghost use Rattle.clr_rules.specs.Needs.{broken_needs};
ghost use Rattle.clr_steps.specs.Offices.{content_of};
ghost use Rattle.clr_merge_sets.specs.MemberChanges.{set_of};

use crate::labels::add_label;
use crate::served_needs::changer_name;
use crate::server_words::texts_of;
use crate::settings::Setting;
use clr_audit::audit;
use clr_merge_sets::rows_of_root;
use clr_needs::{Need, VersionId};
use clr_old_errors::is_among;
use clr_phrases::add_names;
use clr_rows::{CellId, Words};
use clr_rules::Broken;
use std::alloc::{AllocError, Global};

/// Returns the cell of a second version, if there is one.
fn second_cell(version: Option<VersionId>) -> Option<CellId>
    ensures { result ≡ option_map (λ v. v.cell) version }
{
    match version {
        Some(version) => Some(version.cell),
        None => None,
    }
}

/// Returns a need by the cells of its rows.
fn need_at(need: &Need) -> Broken
    ensures { result ≡ need_at need.now }
{
    Broken::new(need.ask(), need.first.cell, second_cell(need.second))
}

/// Returns the words for so many rows that are left.
fn left_words(count: usize) -> &'static str
    ensures { result.now ≡ left_words count }
{
    if count == 1 {
        "that row as it is"
    } else {
        "those rows as they are"
    }
}

/// Returns that an old error is asked anew, since rows of it are changed; and nothing where none is.
fn asked_anew(alloc: Global, changes: &[Words]) -> Result<String, AllocError>
    ensures { IfOk result (λ text. string_bytes text ≡ asked_anew changes.now) }
{
    let mut text = String::new(alloc);
    if changes.is_empty() {
        return Ok(text);
    }
    let names = texts_of(alloc, changes)?;
    text.push_str("This error is old; ")?;
    add_names(&mut text, names.as_slice())?;
    text.push_str(", so it is asked anew: mend it, or leave ")?;
    text.push_str(left_words(changes.len()))?;
    text.push_str(".\n")?;
    Ok(text)
}

impl Setting<'_> {
    /// Adds who changes a row of a need, if a member does.
    fn add_change(&self, changes: &mut Vec<Words>, version: VersionId) -> Result<(), AllocError>
        ensures { OnOk result (changes.new.items ≡ changes.old.items
            ++ change_words self.now.office.now.schema (set_of self.now.members.now).members self.now.members.now.changes.items version) }
    {
        if !version.fresh {
            return Ok(());
        }
        let mut text = String::new(self.alloc);
        text.push_str(changer_name(self.members, version.cell))?;
        text.push_str(" changes ")?;
        add_label(&mut text, self.office.schema(), version.cell)?;
        changes.push(Words::new(text))?;
        Ok(())
    }

    /// Returns who changes which rows of a need.
    fn changed_rows(&self, need: &Need) -> Result<Vec<Words>, AllocError>
        ensures { IfOk result (λ changes. changes.items
            ≡ changed_rows self.now.office.now.schema (set_of self.now.members.now).members self.now.members.now.changes.items need.now) }
    {
        let mut changes = Vec::new(self.alloc);
        self.add_change(&mut changes, need.first)?;
        if let Some(version) = need.second {
            self.add_change(&mut changes, version)?;
        }
        Ok(changes)
    }

    /// Returns the needs that the root breaks, ascending, each once; and none where there is no such root.
    pub fn old_errors(&self) -> Result<Vec<Broken>, AllocError>
        ensures { IfOk result (λ list. list.items ≡ broken_needs self.now.office.now.book (content_of self.now.office.now self.now.members.now.root.now)) }
    {
        let rows = rows_of_root(self.alloc, self.office, self.members.root)?;
        let list = audit(self.alloc, self.office.book(), &rows)?;
        Ok(list)
    }

    /// Returns whether the root breaks a need, too.
    fn is_old(&self, need: &Need) -> Result<bool, AllocError>
        ensures { IfOk result (λ old. old ≡ is_old self.now.office.now self.now.members.now.root.now need.now) }
    {
        let errors = self.old_errors()?;
        Ok(is_among(errors.as_slice(), &need_at(need)))
    }

    /// Returns what is said of a need that members touch, if the root breaks it, too, by the rows that it has: who changes which row of it,
    /// and what can be done. Returns nothing of any other.
    pub fn old_words(&self, need: &Need) -> Result<String, AllocError>
        ensures { IfOk result (λ text. string_bytes text
            ≡ old_text self.now.office.now (set_of self.now.members.now) self.now.members.now.changes.items need.now) }
    {
        let changes = self.changed_rows(need)?;
        if !self.is_old(need)? {
            return Ok(String::new(self.alloc));
        }
        asked_anew(self.alloc, changes.as_slice())
    }
}
