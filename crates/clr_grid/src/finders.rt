//! The finders of an office's contents in which rules are to hold.

ghost use Rattle.std.specs.Prelude.{◌≡◌, ◌<◌, ◌++◌, ◌-◌, [], ◌∷◌, None, Some, length, remove, slice_index_or, slice_set, take};
ghost use Rattle.std.specs.Prelude.{IfOk, OnOk, OnErr, MatchOption, ⊤};
ghost use Rattle.std.specs.FinMap as finite;
ghost use Rattle.std.specs.Option.{option_copied};
ghost use Rattle.clr_rows.specs.Contents.{row_at};
ghost use Rattle.clr_rules.specs.Books.{FitsContent};
ghost use Rattle.clr_grid.specs.Finders.{ArePending, FitAfter, HasForgotten, HasNoted, HasSettled, IsChangedAt, IsFinderOf};

use crate::spot_index::SpotIndex;
use clr_change::ChangeSet;
use clr_finders::RowFinder;
use clr_rows::Sheet;
use clr_rules::RuleBook;
use std::alloc::{AllocError, Global};
use std::marker::Model;

/// The finders of an office, by position: one of the rows of LIVE and of each workspace that is kept, and none for the others.
#[derive(Drop)]
pub struct Finders {
    list: Vec<Option<SpotIndex>>,
}

impl Model for Finders {
    ghost use Rattle.std.specs.Prelude.{List, Option};
    ghost use Rattle.std.specs.Coded.{coded_list, coded_option};
    ghost use Rattle.clr_finders.specs.RowMaps.{FiledRows, coded_rows};

    ghost Value = { List (Option FiledRows) };

    ghost coded = { coded_list (coded_option coded_rows) };

    ghost view = { λ a. a.list.items };
}

/// Adds changes to a finder in which nothing is pending.
fn note_changes(
    finder: &mut SpotIndex,
    book: &RuleBook,
    changed: &ChangeSet,
) -> Result<(), AllocError>
    requires fit { FitAfter book.now changed.now }
    requires free { finder.old.pending ≡ finite.empty }
    ensures settled { finder.new.settled ≡ finder.old.settled }
    ensures pending { OnOk result (ArePending book.now changed.now finder.new.pending) }
{
    for (cell, change) in changed.iter() {
        finder.note(book, *cell, change.after.as_ref())?;
    }
    Ok(())
}

/// Returns the finder of the rows of a content. The book and the rows fit one schema.
pub fn finder_of(alloc: Global, book: &RuleBook, rows: &Sheet) -> Result<SpotIndex, AllocError>
    requires { FitsContent book.now rows.now }
    ensures { IfOk result (IsFinderOf book.now rows.now) }
{
    let mut finder = SpotIndex::new(alloc);
    for (cell, row) in rows.iter() {
        finder = finder.with_row(book, *cell, row)?;
    }
    Ok(finder)
}

/// Adds changes to a finder, if there is one, all of them or none.
fn note(
    finder: &mut Option<SpotIndex>,
    book: &RuleBook,
    changed: &ChangeSet,
) -> Result<(), AllocError>
    requires fit { FitAfter book.now changed.now }
    requires free { MatchOption finder.old ⊤ (λ f. f.pending ≡ finite.empty) }
    ensures ok { OnOk result (HasNoted book.now changed.now finder.old finder.new) }
    ensures err { OnErr result (finder.new ≡ finder.old) }
{
    match finder {
        None => Ok(()),
        Some(finder) => match note_changes(finder, book, changed) {
            Ok(()) => Ok(()),
            Err(error) => {
                finder.forget();
                Err(error)
            }
        },
    }
}

/// Takes over what a finder noted, if there is one.
fn settle(finder: &mut Option<SpotIndex>)
    ensures { HasSettled finder.old finder.new }
{
    if let Some(finder) = finder {
        finder.settle();
    }
}

/// Drops what a finder noted, if there is one.
fn forget(finder: &mut Option<SpotIndex>)
    ensures { HasForgotten finder.old finder.new }
{
    if let Some(finder) = finder {
        finder.forget();
    }
}

impl Finders {
    /// Returns the finders of no positions.
    pub fn new(alloc: Global) -> Finders
        ensures { result ≡ [] }
    {
        Finders {
            list: Vec::new(alloc),
        }
    }

    /// Returns the finder at a position, or none.
    pub fn get(&self, at: usize) -> Option<&SpotIndex>
        ensures { option_copied result ≡ slice_index_or self.now at None }
    {
        match self.list.get(at) {
            Some(Some(finder)) => Some(finder),
            _ => None,
        }
    }

    /// Adds changes to the finder at a position, if it has one, all of them or none. The position is one of those that there
    /// are, nothing is pending in its finder, and the rules and each row that is to stand fit one schema. If memory runs out, nothing changes.
    pub fn note(
        &mut self,
        book: &RuleBook,
        at: usize,
        changed: &ChangeSet,
    ) -> Result<(), AllocError>
        requires within { at < length self.old }
        requires fit { FitAfter book.now changed.now }
        requires free { MatchOption (slice_index_or self.old at None) ⊤ (λ f. f.pending ≡ finite.empty) }
        ensures ok { OnOk result (IsChangedAt (HasNoted book.now changed.now) at self.old self.new) }
        ensures err { OnErr result (self.new ≡ self.old) }
    {
        note(&mut self.list[at], book, changed)
    }

    /// Takes over what the finder at a position noted. The position is one of those that there are.
    pub fn settle(&mut self, at: usize)
        requires { at < length self.old }
        ensures { IsChangedAt HasSettled at self.old self.new }
    {
        settle(&mut self.list[at]);
    }

    /// Drops what the finder at a position noted. The position is one of those that there are.
    pub fn forget(&mut self, at: usize)
        requires { at < length self.old }
        ensures { IsChangedAt HasForgotten at self.old self.new }
    {
        forget(&mut self.list[at]);
    }

    /// Puts a finder, or none, at a position in place of what stands there. The position is one of those that there are.
    pub fn put(&mut self, at: usize, finder: Option<SpotIndex>)
        requires { at < length self.old }
        ensures { self.new ≡ slice_set self.old at finder }
    {
        self.list[at] = finder;
    }

    /// Adds a position at the end, with a finder or none. If memory runs out, nothing changes.
    pub fn push(&mut self, finder: Option<SpotIndex>) -> Result<(), AllocError>
        ensures ok { OnOk result (self.new ≡ self.old ++ finder ∷ []) }
        ensures err { OnErr result (self.new ≡ self.old) }
    {
        self.list.push(finder)?;
        Ok(())
    }

    /// Takes the last position away.
    pub fn drop_last(&mut self)
        ensures { self.new ≡ take (length self.old - 1) self.old }
    {
        self.list.pop();
    }

    /// Takes a position away, which is one of those that there are; the later ones move up.
    pub fn remove(&mut self, at: usize)
        requires { at < length self.old }
        ensures { self.new ≡ remove self.old at }
    {
        self.list.remove(at);
    }
}
