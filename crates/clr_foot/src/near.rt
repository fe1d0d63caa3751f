//! The versions that are near a version: those whose rows share with its row, found by its spots.

ghost use Rattle.std.specs.Prelude.{◌≡◌, ◌<◌, false, true, length, None, Some, IfOk, MatchOption};
ghost use Rattle.std.specs.Option.{option_copied};
ghost use Rattle.clr_finders.specs.Sharing.{row_spots, rule_spots};
ghost use Rattle.clr_needs.specs.Settings.{version};
ghost use Rattle.clr_rows.specs.Held.{Held as OneRow};
ghost use Rattle.clr_foot.specs.Scenes.{IsReady, model_of, setting_in};
ghost use Rattle.clr_foot.specs.Touches.{IsInCells, IsLookedUpIn, IsNeighbour, is_looked_up};
ghost use Rattle.clr_row_versions.specs.Versions.{Finds, FindsAll, IsAt, IsNamed, row_of};

use crate::scenes::Scene;
use clr_finders::{RowFinder, RowSpots, RuleSpots};
use clr_needs::VersionId;
use clr_row_versions::Version;
use clr_rows::{CellId, RowView};
use std::alloc::AllocError;

impl<V: RowView, F: RowFinder> Scene<'_, V, F> {
    /// Returns the spots of the row of a version under each rule, as one of the finders keeps them.
    #[tactic(auto, using(crate::proofs::VersionLists::new_spots, crate::proofs::VersionLists::old_spots))]
    fn filed_spots(&self, version: Version) -> Option<&RowSpots>
        requires ready { IsReady F.settled (model_of V.content self.now) }
        requires at { IsAt (setting_in V.content self.now) version }
        ensures { option_copied result ≡ Some (row_spots self.now.book.now (row_of version.entry)) }
    {
        if version.id.fresh {
            self.new_rows.spots_at(version.id.cell)
        } else {
            self.finder.spots_at(version.id.cell)
        }
    }

    /// Returns the spots of the row of a version under a rule.
    pub(crate) fn spots_of(&self, rule: u16, version: Version) -> &RuleSpots
        requires number { rule < length self.now.book.now }
        requires ready { IsReady F.settled (model_of V.content self.now) }
        requires at { IsAt (setting_in V.content self.now) version }
        ensures { result.now ≡ rule_spots self.now.book.now rule (row_of version.entry) }
    {
        let row = self.filed_spots(version).unwrap();
        row.get(rule).unwrap()
    }

    /// Returns the old versions of some cells, or the new ones.
    pub(crate) fn versions_at(
        &self,
        fresh: bool,
        cells: &[CellId],
    ) -> Result<Vec<Version<'_>>, AllocError>
        ensures { IfOk result (λ list. Finds (setting_in V.content self.now) fresh (IsInCells cells.now) list.items) }
    {
        let mut list = Vec::with_capacity(self.alloc, cells.len())?;
        for cell in cells {
            if let Some(version) = self.version(VersionId { cell: *cell, fresh }) {
                list.push(version)?;
            }
        }
        Ok(list)
    }

    /// Returns the version of a name, if there is one and its cell is looked up.
    fn version_near(&self, servers: bool, rule: u16, id: VersionId) -> Option<Version<'_>>
        requires number { rule < length self.now.book.now }
        ensures { MatchOption result (is_looked_up servers self.now.book.now rule id.cell ≡ true → version (setting_in V.content self.now) id ≡ None)
            (IsNamed (setting_in V.content self.now) id) }
    {
        if self.is_looked_up(servers, rule, id.cell) {
            self.version(id)
        } else {
            None
        }
    }

    /// Returns the old versions of those of some cells that are looked up, or the new ones.
    pub(crate) fn versions_near(
        &self,
        servers: bool,
        rule: u16,
        fresh: bool,
        cells: &[CellId],
    ) -> Result<Vec<Version<'_>>, AllocError>
        requires number { rule < length self.now.book.now }
        ensures { IfOk result (λ list. Finds (setting_in V.content self.now) fresh (IsLookedUpIn servers self.now.book.now rule cells.now) list.items) }
    {
        let mut list = Vec::with_capacity(self.alloc, cells.len())?;
        for cell in cells {
            let id = VersionId { cell: *cell, fresh };
            if let Some(version) = self.version_near(servers, rule, id) {
                list.push(version)?;
            }
        }
        Ok(list)
    }

    /// Returns the old versions whose rows share with a row of these spots and may serve it, or else may be
    /// subjects beside it.
    pub(crate) fn old_near(
        &self,
        rule: u16,
        servers: bool,
        spots: &RuleSpots,
    ) -> Result<Vec<Version<'_>>, AllocError>
        requires number { rule < length self.now.book.now }
        requires ready { IsReady F.settled (model_of V.content self.now) }
        ensures { IfOk result (λ list. (s : OneRow) → spots.now ≡ rule_spots self.now.book.now rule s
            → Finds (setting_in V.content self.now) false (IsNeighbour servers self.now.book.now rule s) list.items) }
    {
        let cells = self.finder.candidates(servers, rule, spots)?;
        let list = self.versions_near(servers, rule, false, cells.as_slice())?;
        Ok(list)
    }

    /// Returns the new versions whose rows share with a row of these spots and may serve it, or else may be
    /// subjects beside it.
    pub(crate) fn new_near(
        &self,
        rule: u16,
        servers: bool,
        spots: &RuleSpots,
    ) -> Result<Vec<Version<'_>>, AllocError>
        requires number { rule < length self.now.book.now }
        requires ready { IsReady F.settled (model_of V.content self.now) }
        ensures { IfOk result (λ list. (s : OneRow) → spots.now ≡ rule_spots self.now.book.now rule s
            → Finds (setting_in V.content self.now) true (IsNeighbour servers self.now.book.now rule s) list.items) }
    {
        let cells = self.new_rows.candidates(servers, rule, spots)?;
        let list = self.versions_near(servers, rule, true, cells.as_slice())?;
        Ok(list)
    }

    /// Returns the versions, old and new, whose rows share with that of a version and may be subjects beside
    /// it.
    pub(crate) fn all_near(
        &self,
        rule: u16,
        version: Version,
    ) -> Result<Vec<Version<'_>>, AllocError>
        requires number { rule < length self.now.book.now }
        requires ready { IsReady F.settled (model_of V.content self.now) }
        requires at { IsAt (setting_in V.content self.now) version }
        ensures { IfOk result (λ list. FindsAll (setting_in V.content self.now) (IsNeighbour false self.now.book.now rule (row_of version.entry)) list.items) }
    {
        let spots = self.spots_of(rule, version);
        let mut list = self.old_near(rule, false, spots)?;
        let new = self.new_near(rule, false, spots)?;
        list.extend_from_slice(new.as_slice())?;
        Ok(list)
    }
}
