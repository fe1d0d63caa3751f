//! The first of the versions that serve a need and are looked for, found cell by cell.

ghost use Rattle.std.specs.Prelude.{◌≡◌, ◌<◌, true, length, option_map, IfOk, IfSome};
ghost use Rattle.clr_rules.specs.Calls.{calls};
ghost use Rattle.clr_finders.specs.NextCells.{IsNextOf};
ghost use Rattle.clr_finders.specs.Sharing.{rule_spots};
ghost use Rattle.clr_needs.specs.Needs.{IsPossibleNeed, ask_of};
ghost use Rattle.clr_needs.specs.Picks.{IsLeastVersion};
ghost use Rattle.clr_needs.specs.Witnesses.{lasts_at};
ghost use Rattle.clr_foot.specs.FirstServers.{IsFirstAt, IsFoundCell, IsServerSought, IsServingSought, IsToldServer, is_sought};
ghost use Rattle.clr_foot.specs.Scenes.{IsReady, model_of, setting_in, setting_of};
ghost use Rattle.clr_row_versions.specs.Versions.{FitsSetting, IsAt, IsAtIfAny, row_of};

use crate::scenes::Scene;
use clr_finders::{RowFinder, RuleSpots, lesser_cell};
use clr_needs::{Need, VersionId};
use clr_row_versions::{RootVersions, Version, is_living};
use clr_rows::{CellId, RowView};
use std::alloc::AllocError;

/// How many cells are looked at one by one before a search ends. Where so many have no version that
/// is looked for, listing all that serve takes no longer than to go on.
const MOST_TRIED: usize = 256;

/// Which of the versions that serve a need are looked for: those that stand after the merge of the
/// one member, or those that live always or as long as a subject.
#[derive(Clone, Copy, Debug)]
pub enum Sought {
    Living,
    Lasting,
}

impl<V: RowView, F: RowFinder> Scene<'_, V, F> {
    /// Returns whether a version lives always, or as long as a subject of a possible need.
    fn lasts(&self, need: &Need, version: Version) -> bool
        requires { IsAt (setting_in V.content self.now) version }
        ensures { result ≡ lasts_at (setting_in V.content self.now) need.now version.entry.id }
    {
        let versions = RootVersions {
            book: self.book,
            root: self.root,
            members: &self.members,
        };
        versions.lasts(need, version)
    }

    /// Returns whether a version is looked for.
    fn is_sought(&self, sought: Sought, need: &Need, version: Version) -> bool
        requires { IsAt (setting_in V.content self.now) version }
        ensures { result ≡ is_sought sought (setting_in V.content self.now) need.now version.entry.id }
    {
        match sought {
            Sought::Living => is_living(version.life),
            Sought::Lasting => self.lasts(need, version),
        }
    }

    /// Returns whether there is a version of a name that serves and is looked for.
    fn is_server_sought(
        &self,
        sought: Sought,
        need: &Need,
        first: Version,
        second: Option<Version>,
        id: VersionId,
    ) -> bool
        requires number { need.now.rule < length self.now.book.now }
        requires fit { FitsSetting (setting_in V.content self.now) }
        requires first { IsAt (setting_in V.content self.now) first }
        requires second { IsAtIfAny (setting_in V.content self.now) second }
        ensures { IsToldServer sought (setting_in V.content self.now) need.now first.entry second.entry id result }
    {
        let versions = RootVersions {
            book: self.book,
            root: self.root,
            members: &self.members,
        };
        match self.version(id) {
            None => false,
            Some(version) => {
                if !versions.serves_if_any(need.ask(), first, second, Some(version)) {
                    return false;
                }
                self.is_sought(sought, need, version)
            }
        }
    }

    /// Returns the old version of a cell or else its new one, as far as it serves and is looked for.
    fn sought_at(
        &self,
        sought: Sought,
        need: &Need,
        first: Version,
        second: Option<Version>,
        cell: CellId,
    ) -> Option<VersionId>
        requires number { need.now.rule < length self.now.book.now }
        requires fit { FitsSetting (setting_in V.content self.now) }
        requires first { IsAt (setting_in V.content self.now) first }
        requires second { IsAtIfAny (setting_in V.content self.now) second }
        ensures { IsFirstAt sought (setting_in V.content self.now) need.now first.entry second.entry cell result }
    {
        let old = VersionId { cell, fresh: false };
        if self.is_server_sought(sought, need, first, second, old) {
            return Some(old);
        }
        let new = VersionId { cell, fresh: true };
        if self.is_server_sought(sought, need, first, second, new) {
            return Some(new);
        }
        None
    }

    /// Returns a cell behind a given one, or any where none is given, which is past no cell there of an old or
    /// new row that is found and may serve.
    fn next_cell(&self, rule: u16, spots: &RuleSpots, after: Option<CellId>) -> Option<CellId>
        ensures { IsNextOf (IsFoundCell (F.settled self.now.finder.now) (F.settled self.now.new_rows) rule spots.now) after result }
    {
        let old = self.finder.next_server(rule, spots, after);
        let new = self.new_rows.next_server(rule, spots, after);
        lesser_cell(old, new)
    }

    /// Returns the least version that serves and is looked for, where it stands at one of the first cells.
    fn first_sought(
        &self,
        sought: Sought,
        need: &Need,
        first: Version,
        second: Option<Version>,
        spots: &RuleSpots,
    ) -> Option<VersionId>
        requires number { need.now.rule < length self.now.book.now }
        requires ready { IsReady F.settled (model_of V.content self.now) }
        requires first { IsAt (setting_in V.content self.now) first }
        requires second { IsAtIfAny (setting_in V.content self.now) second }
        requires called { calls self.now.book.now (ask_of need.now) (row_of first) (option_map row_of second) ≡ true }
        requires spots { spots.now ≡ rule_spots self.now.book.now need.now.rule (row_of first) }
        ensures { IfSome result (IsLeastVersion (IsServerSought sought (setting_in V.content self.now) need.now first.entry second.entry)) }
    {
        let mut after = None;
        for _tried in 0..MOST_TRIED {
            let cell = self.next_cell(need.rule, spots, after)?;
            if let Some(id) = self.sought_at(sought, need, first, second, cell) {
                return Some(id);
            }
            after = Some(cell);
        }
        None
    }

    /// Returns the least version that serves a possible need and is looked for, where it stands at one
    /// of the first cells that are looked at one by one. None says nothing.
    pub(crate) fn early_server(
        &self,
        need: &Need,
        sought: Sought,
    ) -> Result<Option<VersionId>, AllocError>
        requires ready { IsReady F.settled (model_of V.content self.now) }
        requires possible { IsPossibleNeed (setting_of (model_of V.content self.now)) need.now }
        ensures { IfOk result (λ found. IfSome found (IsLeastVersion (IsServingSought sought (setting_of (model_of V.content self.now)) need.now))) }
    {
        match self.version(need.first) {
            None => Ok(None),
            Some(first) => {
                let second = self.version_if_any(need.second);
                let spots = self.spots_of(need.rule, first);
                let found = self.first_sought(sought, need, first, second, spots);
                Ok(found)
            }
        }
    }
}
