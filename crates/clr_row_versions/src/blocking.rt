//! Versions by their lives, and whether a member breaks a need.

ghost use Rattle.std.specs.Prelude.{◌≡◌};
ghost use Rattle.std.specs.List.Sorted.{IsStrictlySortedBy};
ghost use Rattle.clr_needs.specs.Blocking.{IsToldBlocker, has_life, has_subject_of_life};
ghost use Rattle.clr_needs.specs.Members.{lifetime};
ghost use Rattle.clr_needs.specs.Needs.{AreServers, IsPossibleNeed};
ghost use Rattle.clr_needs.specs.Orders.{version_cmp};
ghost use Rattle.clr_needs.specs.Settings.{version};
ghost use Rattle.clr_needs.specs.Witnesses.{IsLeastPassing, has_life_at};
ghost use Rattle.clr_row_versions.specs.RootVersions.{setting_in};

use crate::lives::are_same;
use crate::root_versions::RootVersions;
use clr_needs::{Life, Need, VersionId};
use clr_rows::RowView;

impl<V: RowView> RootVersions<'_, '_, V> {
    /// Tests whether the version of a name has this life.
    fn has_life(&self, id: VersionId, life: Life) -> bool
        ensures { result ≡ has_life (lifetime life) (version (setting_in V.content self.now) id) }
    {
        match self.version(id) {
            None => false,
            Some(version) => are_same(version.life, life),
        }
    }

    /// Returns the least of some ascending versions that has this life.
    pub fn least_with_life(&self, ids: &[VersionId], life: Life) -> Option<VersionId>
        requires ascending { IsStrictlySortedBy version_cmp ids.now }
        ensures { IsLeastPassing (has_life_at (lifetime life) (setting_in V.content self.now)) ids.now result }
    {
        for id in ids {
            if self.has_life(*id, life) {
                return Some(*id);
            }
        }
        None
    }

    /// Tests whether a subject of a possible need has this life.
    pub fn has_subject_with(&self, need: &Need, life: Life) -> bool
        ensures { result ≡ has_subject_of_life (lifetime life) (setting_in V.content self.now) need.now }
    {
        match need.second {
            None => self.has_life(need.first, life),
            Some(second) => self.has_life(need.first, life) || self.has_life(second, life),
        }
    }

    /// Tests whether a member brings a subject of a possible need or takes one of its servers away.
    pub fn is_blocker(&self, need: &Need, servers: &[VersionId], position: u16) -> bool
        requires possible { IsPossibleNeed (setting_in V.content self.now) need.now }
        requires servers { AreServers (setting_in V.content self.now) need.now servers.now }
        ensures { IsToldBlocker (setting_in V.content self.now) need.now position result }
    {
        if self.has_subject_with(need, Life::With(position)) {
            return true;
        }
        match self.least_with_life(servers, Life::Without(position)) {
            None => false,
            Some(_) => true,
        }
    }
}
