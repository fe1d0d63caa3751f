//! Which versions of a cut may be subjects of touched needs of a rule.

ghost use Rattle.std.specs.Prelude.{◌≡◌, ◌<◌, IsTrue, ◌↔◌, length, IfOk};
ghost use Rattle.clr_rows.specs.Held.{Held as OneRow};
ghost use Rattle.clr_row_versions.specs.Versions.{IsAt, row_and_life, version_of};
ghost use Rattle.clr_foot.specs.Scenes.{IsReady};
ghost use Rattle.clr_reach.specs.Found.{IsNear, MayBeTouched};
ghost use Rattle.clr_cut_rows.specs.Searches.{AreNearCells, HasAmong, HasAt, model_of, setting_in};

use crate::cut_rows::CutRows;
use crate::near::NearCells;
use crate::touching::is_touching;
use clr_finders::RowFinder;
use clr_row_versions::Version;
use clr_rows::{CellId, RowView};
use std::alloc::AllocError;

impl<V: RowView, F: RowFinder> CutRows<'_, V, F> {
    /// Tests whether a version may be a subject of a touched need of a rule.
    fn may_be_touched(&self, rule: u16, version: Version) -> Result<bool, AllocError>
        requires number { rule < length self.now.book.now }
        requires ready { IsReady F.settled (model_of V.content self.now) }
        requires at { IsAt (setting_in V.content self.now) version }
        ensures { IfOk result (λ yes. IsTrue yes ↔
            (MayBeTouched self.now.aim (setting_in V.content self.now) rule version.entry.id (row_and_life version.entry))) }
    {
        if is_touching(self.aim, version) {
            return Ok(true);
        }
        let near = self.cells_near(rule, version.as_held())?;
        Ok(self.is_near_touching(rule, &near))
    }

    /// Tests whether there is an old version of a cell, or a new one, that may be touched.
    fn may_be_touched_at(&self, fresh: bool, rule: u16, cell: CellId) -> Result<bool, AllocError>
        requires number { rule < length self.now.book.now }
        requires ready { IsReady F.settled (model_of V.content self.now) }
        ensures { IfOk result (λ yes. IsTrue yes ↔
            (HasAt (MayBeTouched self.now.aim (setting_in V.content self.now) rule) (setting_in V.content self.now) (version_of fresh cell))) }
    {
        match self.version(fresh, cell) {
            None => Ok(false),
            Some(version) => self.may_be_touched(rule, version),
        }
    }

    /// Tests whether the old version of one of some cells, or the new one, may be touched.
    fn any_may_be_touched(
        &self,
        fresh: bool,
        rule: u16,
        cells: &[CellId],
    ) -> Result<bool, AllocError>
        requires number { rule < length self.now.book.now }
        requires ready { IsReady F.settled (model_of V.content self.now) }
        ensures { IfOk result (λ yes. IsTrue yes ↔
            (HasAmong (MayBeTouched self.now.aim (setting_in V.content self.now) rule) (setting_in V.content self.now) fresh cells.now)) }
    {
        for cell in cells {
            if self.may_be_touched_at(fresh, rule, *cell)? {
                return Ok(true);
            }
        }
        Ok(false)
    }

    /// Tests whether a version that may be a subject of a touched need of a rule shares with a row,
    /// by the cells near it.
    pub(crate) fn is_near_touched(&self, rule: u16, near: &NearCells) -> Result<bool, AllocError>
        requires number { rule < length self.now.book.now }
        requires ready { IsReady F.settled (model_of V.content self.now) }
        ensures { IfOk result (λ yes. (s : OneRow) → AreNearCells (setting_in V.content self.now) rule s near.now
            → IsTrue yes ↔ (IsNear (MayBeTouched self.now.aim (setting_in V.content self.now) rule) (setting_in V.content self.now) rule s)) }
    {
        let old = self.any_may_be_touched(false, rule, near.old.as_slice())?;
        let new = self.any_may_be_touched(true, rule, near.new.as_slice())?;
        Ok(old || new)
    }
}
