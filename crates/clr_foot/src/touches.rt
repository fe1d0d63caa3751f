//! The needs that changes touch: each new version is held against the versions that share with it,
//! and each changed one is tried as a server of versions that share with it.

ghost use Rattle.std.specs.Prelude.{◌≡◌, ◌<◌, false, true, length, IfOk, OnErr, OnOk};
ghost use Rattle.clr_row_versions.specs.Candidates.{IsNeedBesideOld, IsNeedServedBy, IsNeedWith};
ghost use Rattle.clr_row_versions.specs.Gains.{Gains, GainsSome, OfSome, Reaches};
ghost use Rattle.clr_new_pairs.specs.NewPairs.{Passes};
ghost use Rattle.clr_needs.specs.Needs.{AreTouchedNeeds, IsTouched};
ghost use Rattle.clr_foot.specs.Scenes.{IsReady, model_of, setting_in, setting_of};
ghost use Rattle.clr_foot.specs.Touches.{IsInCells, IsNeedOfChanged, IsNeedOfNew, IsNeedServedAmong, IsTouchedOf, ListsTouched};
ghost use Rattle.clr_row_versions.specs.Versions.{AreAt, Finds, FitsSetting, IsAt};

use crate::scenes::Scene;
use clr_finders::RowFinder;
use clr_needs::Need;
use clr_row_versions::{RootVersions, Version, is_living};
use clr_rows::RowView;
use clr_spots::put_in_order;
use std::alloc::AllocError;

impl<V: RowView, F: RowFinder> Scene<'_, V, F> {
    /// Adds the possible needs with a version among their subjects: alone, or beside a version that
    /// shares with it. If memory runs out, the list keeps what stood in it, and besides that it has
    /// only some of these needs.
    pub(crate) fn add_with(
        &self,
        rule: u16,
        version: Version,
        needs: &mut Vec<Need>,
    ) -> Result<(), AllocError>
        requires number { rule < length self.now.book.now }
        requires ready { IsReady F.settled (model_of V.content self.now) }
        requires at { IsAt (setting_in V.content self.now) version }
        ensures ok { OnOk result (Gains (IsNeedWith (setting_in V.content self.now) rule version.entry.id)
            (IsNeedWith (setting_in V.content self.now) rule version.entry.id) needs.old.items needs.new.items) }
        ensures err { OnErr result (GainsSome (IsNeedWith (setting_in V.content self.now) rule version.entry.id)
            needs.old.items needs.new.items) }
    {
        let versions = RootVersions {
            book: self.book,
            root: self.root,
            members: &self.members,
        };
        versions.add_alone(rule, None, version, needs)?;
        if !self.may_be_paired(rule, version) {
            return Ok(());
        }
        let near = self.all_near(rule, version)?;
        versions.add_pairs(rule, None, version, near.as_slice(), needs)?;
        Ok(())
    }

    /// Adds the possible needs with a new version among their subjects: alone, or beside an old version
    /// that shares with it.
    fn add_beside_old(
        &self,
        rule: u16,
        version: Version,
        needs: &mut Vec<Need>,
    ) -> Result<(), AllocError>
        requires number { rule < length self.now.book.now }
        requires ready { IsReady F.settled (model_of V.content self.now) }
        requires at { IsAt (setting_in V.content self.now) version }
        requires new { version.id.fresh ≡ true }
        ensures { OnOk result (Gains (IsNeedWith (setting_in V.content self.now) rule version.entry.id)
            (IsNeedBesideOld (setting_in V.content self.now) rule version.entry.id) needs.old.items needs.new.items) }
    {
        let versions = RootVersions {
            book: self.book,
            root: self.root,
            members: &self.members,
        };
        versions.add_alone(rule, None, version, needs)?;
        if !self.may_be_paired(rule, version) {
            return Ok(());
        }
        let spots = self.spots_of(rule, version);
        let near = self.old_near(rule, false, spots)?;
        versions.add_pairs(rule, None, version, near.as_slice(), needs)?;
        Ok(())
    }

    /// Adds the needs of some versions, each alone and with others, that a server serves.
    fn add_served(
        &self,
        rule: u16,
        server: Version,
        near: &[Version],
        needs: &mut Vec<Need>,
    ) -> Result<(), AllocError>
        requires number { rule < length self.now.book.now }
        requires fit { FitsSetting (setting_in V.content self.now) }
        requires server { IsAt (setting_in V.content self.now) server }
        requires near { AreAt (setting_in V.content self.now) near.now }
        ensures ok { OnOk result (Gains (IsNeedServedAmong self.now.book.now rule server.entry near.now near.now)
            (IsNeedServedAmong self.now.book.now rule server.entry near.now near.now) needs.old.items needs.new.items) }
        ensures err { OnErr result (GainsSome (IsNeedServedAmong self.now.book.now rule server.entry near.now near.now)
            needs.old.items needs.new.items) }
    {
        let versions = RootVersions {
            book: self.book,
            root: self.root,
            members: &self.members,
        };
        for first in near {
            versions.add_alone(rule, Some(server), *first, needs)?;
            versions.add_pairs(rule, Some(server), *first, near, needs)?;
        }
        Ok(())
    }

    /// Adds the possible needs that a version serves. If memory runs out, the list keeps what stood
    /// in it, and besides that it has only some of these needs.
    #[tactic(auto, using(clr_row_versions::proofs::Gaining::none_gained))]
    pub(crate) fn add_served_by(
        &self,
        rule: u16,
        server: Version,
        needs: &mut Vec<Need>,
    ) -> Result<(), AllocError>
        requires number { rule < length self.now.book.now }
        requires ready { IsReady F.settled (model_of V.content self.now) }
        requires at { IsAt (setting_in V.content self.now) server }
        ensures ok { OnOk result (Gains (IsNeedServedBy (setting_in V.content self.now) rule server.entry.id)
            (IsNeedServedBy (setting_in V.content self.now) rule server.entry.id) needs.old.items needs.new.items) }
        ensures err { OnErr result (GainsSome (IsNeedServedBy (setting_in V.content self.now) rule server.entry.id)
            needs.old.items needs.new.items) }
    {
        if !self.may_serve(rule, server) {
            return Ok(());
        }
        let near = self.served_near(rule, server)?;
        self.add_served(rule, server, near.as_slice(), needs)?;
        Ok(())
    }

    /// Adds the touched needs of a rule with each of some new versions, but for those of two new ones.
    fn add_of_new_versions(
        &self,
        rule: u16,
        fresh: &[Version],
        needs: &mut Vec<Need>,
    ) -> Result<(), AllocError>
        requires number { rule < length self.now.book.now }
        requires ready { IsReady F.settled (model_of V.content self.now) }
        requires fresh { Finds (setting_in V.content self.now) true (IsInCells self.now.members.cells.items) fresh.now }
        ensures { OnOk result (Gains (IsTouched (setting_in V.content self.now)) (OfSome (IsNeedOfNew (setting_in V.content self.now) rule) fresh.now)
            needs.old.items needs.new.items) }
    {
        for version in fresh {
            self.add_beside_old(rule, *version, needs)?;
        }
        Ok(())
    }

    /// Adds the needs of a rule that an old version serves, if a member changes it.
    fn add_if_changed(
        &self,
        rule: u16,
        version: Version,
        needs: &mut Vec<Need>,
    ) -> Result<(), AllocError>
        requires number { rule < length self.now.book.now }
        requires ready { IsReady F.settled (model_of V.content self.now) }
        requires at { IsAt (setting_in V.content self.now) version }
        ensures { OnOk result (Gains (IsTouched (setting_in V.content self.now)) (IsNeedOfChanged (setting_in V.content self.now) rule version.entry)
            needs.old.items needs.new.items) }
    {
        if is_living(version.life) {
            return Ok(());
        }
        self.add_served_by(rule, version, needs)?;
        Ok(())
    }

    /// Adds the needs of a rule that those of some old versions serve which a member changes.
    fn add_of_changed(
        &self,
        rule: u16,
        old: &[Version],
        needs: &mut Vec<Need>,
    ) -> Result<(), AllocError>
        requires number { rule < length self.now.book.now }
        requires ready { IsReady F.settled (model_of V.content self.now) }
        requires old { AreAt (setting_in V.content self.now) old.now }
        ensures { OnOk result (Gains (IsTouched (setting_in V.content self.now)) (OfSome (IsNeedOfChanged (setting_in V.content self.now) rule) old.now)
            needs.old.items needs.new.items) }
    {
        for version in old {
            self.add_if_changed(rule, *version, needs)?;
        }
        Ok(())
    }

    /// Adds the touched needs of a rule, where the new versions and the old ones of the changed cells
    /// are given. If it is leaves_out, needs may be left out that stand behind one which no row serves.
    fn add_of_rule(
        &self,
        rule: u16,
        leaves_out: bool,
        fresh: &[Version],
        old: &[Version],
        needs: &mut Vec<Need>,
    ) -> Result<(), AllocError>
        requires number { rule < length self.now.book.now }
        requires ready { IsReady F.settled (model_of V.content self.now) }
        requires fresh { Finds (setting_in V.content self.now) true (IsInCells self.now.members.cells.items) fresh.now }
        requires old { Finds (setting_in V.content self.now) false (IsInCells self.now.members.cells.items) old.now }
        ensures { OnOk result (Reaches (Passes self.now.book.now leaves_out) (IsTouched (setting_in V.content self.now))
            (IsTouchedOf (setting_in V.content self.now) rule) needs.old.items needs.new.items) }
    {
        self.add_of_new_versions(rule, fresh, needs)?;
        self.add_of_changed(rule, old, needs)?;
        self.add_of_new_pairs(rule, leaves_out, fresh, needs)?;
        Ok(())
    }

    /// Returns the touched needs, ascending, each once. If it is leaves_out, needs may be left out that stand
    /// behind one which no row serves.
    pub(crate) fn list_touched(&self, leaves_out: bool) -> Result<Vec<Need>, AllocError>
        requires ready { IsReady F.settled (model_of V.content self.now) }
        ensures { IfOk result (λ needs. ListsTouched (setting_in V.content self.now) leaves_out needs.items) }
    {
        let fresh = self.versions_at(true, self.members.cells.as_slice())?;
        let old = self.versions_at(false, self.members.cells.as_slice())?;
        let mut needs = Vec::new(self.alloc);
        for rule in 0..self.book.len() {
            self.add_of_rule(
                rule as u16,
                leaves_out,
                fresh.as_slice(),
                old.as_slice(),
                &mut needs,
            )?;
        }
        put_in_order(&mut needs);
        Ok(needs)
    }

    /// Returns the touched needs: possible ones with a new subject, and those of old subjects that
    /// an old version serves which a member changes. They are ascending, each once.
    /// For example, where mains may cross only at nodes, and a member deletes the node at which mains 1 and 2 cross, the
    /// need of these two mains is touched.
    pub fn touched_needs(&self) -> Result<Vec<Need>, AllocError>
        requires ready { IsReady F.settled (model_of V.content self.now) }
        ensures { IfOk result (λ needs. AreTouchedNeeds (setting_of (model_of V.content self.now)) needs.items) }
    {
        let needs = self.list_touched(false)?;
        Ok(needs)
    }
}
