//! The rows of a cause in words.

ghost use Rattle.std.specs.Prelude.{◌≡◌, ◌++◌, IfOk, OnOk, string_bytes};
ghost use Rattle.std.specs.Option.{option_copied};
ghost use Rattle.clr_plan_sentences.specs.ToldRows.{row_now, row_of_member, row_of_version, row_taken_over, row_text, standing_text, told_row, touched_text};
ghost use Rattle.clr_merge_sets.specs.MemberChanges.{set_of};

use crate::settings::Setting;
use clr_member_changes::{MemberChanges, Standing};
use clr_needs::VersionId;
use clr_phrases::row_words;
use clr_rows::{CellId, List, Row, Schema, Words};
use std::alloc::{AllocError, Global};

/// A row of a cause in words: its table and key, where it stands, and its values and its place.
#[derive(Drop)]
pub struct RowWords {
    pub label: Words,
    pub standing: Words,
    pub words: Words,
}

/// A cause in words.
#[derive(Drop)]
pub struct CauseWords {
    /// Which rule nothing serves, or which row is changed twice; a line.
    pub reason: Words,
    /// The rows that the cause names.
    pub rows: List<RowWords>,
    /// Where the rows meet, and what stands there; lines, each behind two spaces.
    pub place: Words,
}

/// Adds that a row stands in the root, and what a member does with it.
fn add_touched(
    text: &mut String,
    members: &MemberChanges<'_>,
    at: usize,
    what: &str,
) -> Result<(), AllocError>
    ensures { OnOk result (string_bytes text.new ≡ string_bytes text.old ++ touched_text (set_of members.now) at what.now) }
{
    text.push_str("stands in ")?;
    text.push_str(members.root)?;
    text.push_str(", and ")?;
    text.push_str(members.name(at))?;
    text.push_str(what)
}

/// Adds where a row stands.
fn add_standing(
    text: &mut String,
    members: &MemberChanges<'_>,
    standing: Standing,
) -> Result<(), AllocError>
    ensures { OnOk result (string_bytes text.new ≡ string_bytes text.old ++ standing_text (set_of members.now) standing) }
{
    match standing {
        Standing::Stays => {
            text.push_str("stands in ")?;
            text.push_str(members.root)
        }
        Standing::Changed(at) => add_touched(text, members, at, " changes it"),
        Standing::Removed(at) => add_touched(text, members, at, " takes it away"),
        Standing::New(at) => {
            text.push_str("new in ")?;
            text.push_str(members.name(at))
        }
        Standing::TakenOver(at) => {
            text.push_str("in ")?;
            text.push_str(members.root)?;
            text.push_str(" when ")?;
            text.push_str(members.name(at))?;
            text.push_str(" took it over")?;
            Ok(())
        }
        Standing::Now => {
            text.push_str("in ")?;
            text.push_str(members.root)?;
            text.push_str(" now")
        }
    }
}

/// Returns where a row stands.
fn standing_words(
    alloc: Global,
    members: &MemberChanges<'_>,
    standing: Standing,
) -> Result<Words, AllocError>
    ensures { IfOk result (λ words. words ≡ standing_text (set_of members.now) standing) }
{
    let mut text = String::new(alloc);
    add_standing(&mut text, members, standing)?;
    Ok(Words::new(text))
}

/// Returns the values and the place of a row, or that there is none.
fn words_of(
    alloc: Global,
    schema: &Schema,
    cell: CellId,
    row: Option<&Row>,
) -> Result<Words, AllocError>
    ensures { IfOk result (λ words. words ≡ row_text schema.now cell (option_copied row.entry)) }
{
    match row {
        Some(row) => Ok(Words::new(row_words(alloc, schema, cell, row)?)),
        None => Words::from_str(alloc, "no row"),
    }
}

impl Setting<'_> {
    /// Returns a row of a cell, as a row of a cause.
    fn told_row(
        &self,
        cell: CellId,
        row: Option<&Row>,
        standing: Standing,
    ) -> Result<RowWords, AllocError>
        ensures { IfOk result (λ told. told ≡ told_row self.now.office.now (set_of self.now.members.now) cell (option_copied row.entry) standing) }
    {
        let label = self.cell_label(cell)?;
        let standing = standing_words(self.alloc, self.members, standing)?;
        let words = words_of(self.alloc, self.office.schema(), cell, row)?;
        Ok(RowWords {
            label: Words::new(label),
            standing,
            words,
        })
    }

    /// Returns the row that a version has, as a row of a cause.
    pub(crate) fn row_of_version(
        &self,
        version: VersionId,
        row: Option<&Row>,
    ) -> Result<RowWords, AllocError>
        ensures { IfOk result (λ told. told ≡ row_of_version self.now.office.now (set_of self.now.members.now)
            self.now.members.now.changes.items version (option_copied row.entry)) }
    {
        let told = self.told_row(version.cell, row, self.members.standing(version))?;
        Ok(told)
    }

    /// Returns the row that a member took over at a cell, as a row of a cause.
    pub(crate) fn row_taken_over(&self, cell: CellId, member: usize) -> Result<RowWords, AllocError>
        ensures { IfOk result (λ row. row
            ≡ row_taken_over self.now.office.now (set_of self.now.members.now) self.now.members.now.changes.items cell member) }
    {
        let row = self.members.row_before(member, cell);
        let told = self.told_row(cell, row, Standing::TakenOver(member))?;
        Ok(told)
    }

    /// Returns the row that the root has at a cell, as a row of a cause.
    pub(crate) fn row_now(&self, cell: CellId) -> Result<RowWords, AllocError>
        ensures { IfOk result (λ row. row ≡ row_now self.now.office.now (set_of self.now.members.now) cell) }
    {
        let row = self.office.read(self.members.root, cell);
        let told = self.told_row(cell, row, Standing::Now)?;
        Ok(told)
    }

    /// Returns the row that a member has at a cell, as a row of a cause.
    pub(crate) fn row_of_member(&self, cell: CellId, member: usize) -> Result<RowWords, AllocError>
        ensures { IfOk result (λ row. row
            ≡ row_of_member self.now.office.now (set_of self.now.members.now) self.now.members.now.changes.items cell member) }
    {
        let row = self.members.row_after(member, cell);
        let told = self.told_row(cell, row, Standing::New(member))?;
        Ok(told)
    }
}
