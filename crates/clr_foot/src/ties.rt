//! The needs that involve a member, and among them those by which it touches something and those that may
//! tie it to another member: each version that the member brings or changes is held against the
//! versions that share with it, as a subject and as a server.

ghost use Rattle.std.specs.Prelude.{◌≡◌, ◌<◌, ◌↔◌, false, length, Contains, IfOk, OnOk};
ghost use Rattle.std.specs.FinMap as finite;
ghost use Rattle.clr_finders.specs.Sharing.{rule_spots};
ghost use Rattle.clr_needs.specs.Needs.{Lists};
ghost use Rattle.clr_needs.specs.Orders.{need_cmp};
ghost use Rattle.clr_needs.specs.Settings.{changer};
ghost use Rattle.clr_rows.specs.declared.cells.CellId.{CellId as Cell};
ghost use Rattle.clr_rows.specs.Held.{Held as OneRow};
ghost use Rattle.clr_row_versions.specs.Candidates.{IsNeedWith};
ghost use Rattle.clr_row_versions.specs.Gains.{Gains, OfSome};
ghost use Rattle.clr_row_versions.specs.Versions.{AreAt, Finds, IsAt};
ghost use Rattle.clr_foot.specs.Involvement.{IsInvolving};
ghost use Rattle.clr_foot.specs.Scenes.{IsReady, model_of, setting_in, setting_of};
ghost use Rattle.clr_foot.specs.declared.ties.TieKind.TheVariants.{Other, Touching};
ghost use Rattle.clr_foot.specs.Ties.{AreTiesOf, AreVersionsOf, FindsTies, IsChangedCell, IsChangedNeighbour, IsNeedOfChangedSubjects, IsTieOf, MayTie};

use crate::scenes::Scene;
use clr_finders::{RowFinder, RuleSpots};
use clr_needs::Need;
use clr_row_versions::{RootVersions, Version, add_cells, is_named};
use clr_rows::{CellId, RowView};
use clr_spots::put_in_order;
use std::alloc::AllocError;

/// Which needs of a member's versions are listed: all, those by which the member touches something, or
/// the others that may tie it to another member.
#[derive(Clone, Copy, Debug)]
pub enum TieKind {
    Any,
    Touching,
    Other,
}

/// Needs that involve a member: those by which it touches something, which are touched, and others
/// that may tie it to another member. A need may stand in a list more than once.
#[derive(Debug, Drop)]
pub struct Ties {
    pub touching: Vec<Need>,
    pub others: Vec<Need>,
}

impl<V: RowView, F: RowFinder> Scene<'_, V, F> {
    /// Returns the first member that changes a cell, if one does.
    pub fn changer(&self, cell: CellId) -> Option<u16>
        ensures { result ≡ changer (setting_of (model_of V.content self.now)) cell }
    {
        self.members.changer(cell)
    }

    /// Adds a cell, if a member changes it.
    fn add_if_changed_cell(&self, cell: CellId, list: &mut Vec<CellId>) -> Result<(), AllocError>
        ensures { OnOk result (Gains (IsChangedCell (setting_in V.content self.now) cell) (IsChangedCell (setting_in V.content self.now) cell)
            list.old.items list.new.items) }
    {
        if self.changer(cell).is_none() {
            return Ok(());
        }
        list.push(cell)?;
        Ok(())
    }

    /// Returns those of some cells that a member changes.
    fn changed_among(&self, cells: &[CellId]) -> Result<Vec<CellId>, AllocError>
        ensures { IfOk result (λ list. (q : Cell) → Contains list.items q ↔ OfSome (IsChangedCell (setting_in V.content self.now)) cells.now q) }
    {
        let mut list = Vec::new(self.alloc);
        for cell in cells {
            self.add_if_changed_cell(*cell, &mut list)?;
        }
        Ok(list)
    }

    /// Returns the old versions that members change, whose rows share with a row of these spots and may be
    /// subjects beside it.
    fn changed_near(&self, rule: u16, spots: &RuleSpots) -> Result<Vec<Version<'_>>, AllocError>
        requires number { rule < length self.now.book.now }
        requires ready { IsReady F.settled (model_of V.content self.now) }
        ensures { IfOk result (λ list. (s : OneRow) → spots.now ≡ rule_spots self.now.book.now rule s
            → Finds (setting_in V.content self.now) false (IsChangedNeighbour (setting_in V.content self.now) rule s) list.items) }
    {
        let cells = self.finder.candidates(false, rule, spots)?;
        let changed = self.changed_among(cells.as_slice())?;
        let list = self.versions_near(false, rule, false, changed.as_slice())?;
        Ok(list)
    }

    /// Adds the possible needs of two subjects that members change, one of which is a version.
    fn add_beside_changed(
        &self,
        rule: u16,
        version: Version,
        needs: &mut Vec<Need>,
    ) -> Result<(), AllocError>
        requires number { rule < length self.now.book.now }
        requires ready { IsReady F.settled (model_of V.content self.now) }
        requires at { IsAt (setting_in V.content self.now) version }
        ensures { OnOk result (Gains (IsNeedWith (setting_in V.content self.now) rule version.entry.id)
            (IsNeedOfChangedSubjects (setting_in V.content self.now) rule version.entry.id) needs.old.items needs.new.items) }
    {
        if !self.may_be_paired(rule, version) {
            return Ok(());
        }
        let versions = RootVersions {
            book: self.book,
            root: self.root,
            members: &self.members,
        };
        let spots = self.spots_of(rule, version);
        let near = self.changed_near(rule, spots)?;
        versions.add_pairs(rule, None, version, near.as_slice(), needs)?;
        Ok(())
    }

    /// Adds the needs of a kind of a version, if its life names a member.
    fn add_tie(
        &self,
        rule: u16,
        position: u16,
        kind: TieKind,
        version: Version,
        needs: &mut Vec<Need>,
    ) -> Result<(), AllocError>
        requires number { rule < length self.now.book.now }
        requires ready { IsReady F.settled (model_of V.content self.now) }
        requires at { IsAt (setting_in V.content self.now) version }
        ensures { OnOk result (Gains (MayTie kind (setting_in V.content self.now) position)
            (IsTieOf kind (setting_in V.content self.now) rule position version.entry) needs.old.items needs.new.items) }
    {
        if !is_named(version.life, position) {
            return Ok(());
        }
        match (kind, version.id.fresh) {
            (TieKind::Any, _) => {
                self.add_with(rule, version, needs)?;
                self.add_served_by(rule, version, needs)?;
            }
            (TieKind::Touching, true) => self.add_with(rule, version, needs)?,
            (TieKind::Touching, false) => self.add_served_by(rule, version, needs)?,
            (TieKind::Other, true) => self.add_served_by(rule, version, needs)?,
            (TieKind::Other, false) => self.add_beside_changed(rule, version, needs)?,
        }
        Ok(())
    }

    /// Adds the needs of a kind of some versions, of those whose life names a member.
    fn add_ties(
        &self,
        rule: u16,
        position: u16,
        kind: TieKind,
        versions: &[Version],
        needs: &mut Vec<Need>,
    ) -> Result<(), AllocError>
        requires number { rule < length self.now.book.now }
        requires ready { IsReady F.settled (model_of V.content self.now) }
        requires at { AreAt (setting_in V.content self.now) versions.now }
        ensures { OnOk result (Gains (MayTie kind (setting_in V.content self.now) position)
            (OfSome (IsTieOf kind (setting_in V.content self.now) rule position) versions.now) needs.old.items needs.new.items) }
    {
        for version in versions {
            self.add_tie(rule, position, kind, *version, needs)?;
        }
        Ok(())
    }

    /// Returns the needs of a kind of some versions, of those whose life names a member, under all rules.
    fn ties_of(
        &self,
        position: u16,
        kind: TieKind,
        versions: &[Version],
    ) -> Result<Vec<Need>, AllocError>
        requires ready { IsReady F.settled (model_of V.content self.now) }
        requires at { AreAt (setting_in V.content self.now) versions.now }
        ensures { IfOk result (λ needs. AreTiesOf kind (setting_in V.content self.now) position versions.now needs.items) }
    {
        let mut needs = Vec::new(self.alloc);
        for rule in 0..self.book.len() {
            self.add_ties(rule as u16, position, kind, versions, &mut needs)?;
        }
        Ok(needs)
    }

    /// Returns the versions, old and new, of the cells that a member changes.
    fn versions_of(&self, position: u16) -> Result<Vec<Version<'_>>, AllocError>
        requires { position < length (model_of V.content self.now).sets }
        ensures { IfOk result (λ list. AreVersionsOf (setting_in V.content self.now) position list.items) }
    {
        let mut cells = Vec::new(self.alloc);
        add_cells(self.members.sets[position as usize], &mut cells)?;
        let mut list = self.versions_at(false, cells.as_slice())?;
        let new = self.versions_at(true, cells.as_slice())?;
        list.extend_from_slice(new.as_slice())?;
        Ok(list)
    }

    /// Returns the possible needs that involve a member, ascending, each once.
    pub fn needs_involving(&self, position: u16) -> Result<Vec<Need>, AllocError>
        requires ready { IsReady F.settled (model_of V.content self.now) }
        requires position { position < length (model_of V.content self.now).sets }
        ensures { IfOk result (λ needs. Lists need_cmp (IsInvolving (setting_of (model_of V.content self.now)) position) needs.items) }
    {
        let versions = self.versions_of(position)?;
        let mut needs = self.ties_of(position, TieKind::Any, versions.as_slice())?;
        put_in_order(&mut needs);
        Ok(needs)
    }

    /// Returns needs that involve a member, in no order: those by which it touches something, which are those of new
    /// subjects that it brings and those that rows serve which it changes; and others that may tie it to another
    /// member, among them those that rows serve which it brings, and those of two old subjects that members change.
    pub fn ties(&self, position: u16) -> Result<Ties, AllocError>
        requires ready { IsReady F.settled (model_of V.content self.now) }
        requires position { position < length (model_of V.content self.now).sets }
        ensures touching { IfOk result (λ ties. FindsTies Touching (setting_of (model_of V.content self.now)) position ties.touching.items) }
        ensures others { IfOk result (λ ties. FindsTies Other (setting_of (model_of V.content self.now)) position ties.others.items) }
    {
        let versions = self.versions_of(position)?;
        let touching = self.ties_of(position, TieKind::Touching, versions.as_slice())?;
        let others = self.ties_of(position, TieKind::Other, versions.as_slice())?;
        Ok(Ties { touching, others })
    }
}
