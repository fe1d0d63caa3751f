//! The witnesses among the versions that serve a need.

ghost use Rattle.std.specs.Prelude.{◌≡◌, length};
ghost use Rattle.std.specs.List.Sorted.{IsStrictlySortedBy};
ghost use Rattle.clr_needs.specs.Needs.{AreServers};
ghost use Rattle.clr_needs.specs.Orders.{version_cmp};
ghost use Rattle.clr_needs.specs.Picks.{Picks};
ghost use Rattle.clr_needs.specs.Witnesses.{IsFirstPair, IsLeastPassing, IsPairOf, lasts_at};
ghost use Rattle.clr_row_versions.specs.RootVersions.{setting_in};
ghost use Rattle.clr_row_versions.specs.Versions.{IsAt};

use crate::lives::are_same;
use crate::root_versions::RootVersions;
use crate::versions::Version;
use clr_needs::{Life, Need, VersionId};
use clr_rows::RowView;

impl<V: RowView> RootVersions<'_, '_, V> {
    /// Tests whether a version lives always, or as long as a subject of a possible need.
    pub fn lasts(&self, need: &Need, version: Version) -> bool
        requires { IsAt (setting_in V.content self.now) version }
        ensures { result ≡ lasts_at (setting_in V.content self.now) need.now version.entry.id }
    {
        are_same(version.life, Life::Always) || self.has_subject_with(need, version.life)
    }

    /// Tests whether the version of a name lives always, or as long as a subject of a possible need.
    fn is_lasting(&self, need: &Need, id: VersionId) -> bool
        ensures { result ≡ lasts_at (setting_in V.content self.now) need.now id }
    {
        match self.version(id) {
            None => false,
            Some(version) => self.lasts(need, version),
        }
    }

    /// Returns the least of some ascending versions that lives always, or as long as a subject of a
    /// possible need.
    fn least_lasting(&self, need: &Need, ids: &[VersionId]) -> Option<VersionId>
        requires ascending { IsStrictlySortedBy version_cmp ids.now }
        ensures { IsLeastPassing (lasts_at (setting_in V.content self.now) need.now) ids.now result }
    {
        for id in ids {
            if self.is_lasting(need, *id) {
                return Some(*id);
            }
        }
        None
    }

    /// Returns the least of some ascending versions that a member takes away, and the least that it brings,
    /// where there are both.
    fn pair_of(&self, ids: &[VersionId], position: u16) -> Option<(VersionId, VersionId)>
        requires ascending { IsStrictlySortedBy version_cmp ids.now }
        ensures { IsPairOf (setting_in V.content self.now) ids.now position result }
    {
        let taken = self.least_with_life(ids, Life::Without(position))?;
        let brought = self.least_with_life(ids, Life::With(position))?;
        Some((taken, brought))
    }

    /// Returns the pair of the first member that takes one of some versions away and brings another.
    fn first_pair(&self, ids: &[VersionId]) -> Option<(VersionId, VersionId)>
        requires ascending { IsStrictlySortedBy version_cmp ids.now }
        ensures { IsFirstPair (setting_in V.content self.now) ids.now (length self.now.members.now.sets.items) result }
    {
        for position in 0..self.members.sets.len() {
            if let Some(pair) = self.pair_of(ids, position as u16) {
                return Some(pair);
            }
        }
        None
    }

    /// Returns the witnesses that a planner names, among the versions that serve a possible need.
    pub fn pick_of(
        &self,
        need: &Need,
        servers: &[VersionId],
    ) -> Option<(VersionId, Option<VersionId>)>
        requires servers { AreServers (setting_in V.content self.now) need.now servers.now }
        ensures { Picks (setting_in V.content self.now) need.now result }
    {
        match self.least_lasting(need, servers) {
            Some(witness) => Some((witness, None)),
            None => {
                let (taken, brought) = self.first_pair(servers)?;
                Some((taken, Some(brought)))
            }
        }
    }
}
