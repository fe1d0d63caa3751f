//! The versions that serve a need, and whether one does.

ghost use Rattle.std.specs.Prelude.{◌≡◌, ◌<◌, ◌↔◌, true, length, option_map, IfOk};
ghost use Rattle.clr_rules.specs.Calls.{calls};
ghost use Rattle.clr_needs.specs.Needs.{AreServers, IsPossibleNeed, IsServing, Lists};
ghost use Rattle.clr_needs.specs.Orders.{version_cmp};
ghost use Rattle.clr_foot.specs.Scenes.{IsReady, model_of, setting_in, setting_of};
ghost use Rattle.clr_foot.specs.Touches.{IsServerOf};
ghost use Rattle.clr_row_versions.specs.Versions.{IsAt, IsAtIfAny, IsNamedIfAny, row_of};

use crate::scenes::Scene;
use clr_finders::RowFinder;
use clr_needs::{Need, VersionId};
use clr_row_versions::{RootVersions, Version};
use clr_rows::RowView;
use clr_rules::Ask;
use clr_spots::put_in_order;
use std::alloc::AllocError;

impl<V: RowView, F: RowFinder> Scene<'_, V, F> {
    /// Returns the version of a name, if one is given and there is one.
    pub(crate) fn version_if_any(&self, id: Option<VersionId>) -> Option<Version<'_>>
        ensures { IsNamedIfAny (setting_in V.content self.now) id result }
    {
        match id {
            None => None,
            Some(id) => self.version(id),
        }
    }

    /// Returns the names of the versions that serve what is asked of subjects that call.
    fn servers_of(
        &self,
        ask: Ask,
        first: Version,
        second: Option<Version>,
    ) -> Result<Vec<VersionId>, AllocError>
        requires number { ask.rule < length self.now.book.now }
        requires ready { IsReady F.settled (model_of V.content self.now) }
        requires first { IsAt (setting_in V.content self.now) first }
        requires second { IsAtIfAny (setting_in V.content self.now) second }
        requires called { calls self.now.book.now ask (row_of first) (option_map row_of second) ≡ true }
        ensures { IfOk result (λ names. Lists version_cmp (IsServerOf (setting_in V.content self.now) ask first.entry second.entry) names.items) }
    {
        let spots = self.spots_of(ask.rule, first);
        let old = self.old_near(ask.rule, true, spots)?;
        let new = self.new_near(ask.rule, true, spots)?;
        let versions = RootVersions {
            book: self.book,
            root: self.root,
            members: &self.members,
        };
        let mut names = Vec::new(self.alloc);
        versions.add_servers(ask, first, second, old.as_slice(), &mut names)?;
        versions.add_servers(ask, first, second, new.as_slice(), &mut names)?;
        put_in_order(&mut names);
        Ok(names)
    }

    /// Returns the versions that serve a possible need, ascending, each once.
    /// For example, where mains 1 and 2 cross at node 9, and a member deletes node 9 and inserts node 10 at the same
    /// point, the old version of node 9 and the new one of node 10 serve.
    pub fn servers(&self, need: &Need) -> Result<Vec<VersionId>, AllocError>
        requires ready { IsReady F.settled (model_of V.content self.now) }
        requires possible { IsPossibleNeed (setting_of (model_of V.content self.now)) need.now }
        ensures { IfOk result (λ servers. AreServers (setting_of (model_of V.content self.now)) need.now servers.items) }
    {
        match self.version(need.first) {
            None => Ok(Vec::new(self.alloc)),
            Some(first) => {
                let second = self.version_if_any(need.second);
                let servers = self.servers_of(need.ask(), first, second)?;
                Ok(servers)
            }
        }
    }

    /// Returns whether the version of a name serves a possible need.
    pub fn is_server(&self, need: &Need, id: VersionId) -> bool
        requires ready { IsReady F.settled (model_of V.content self.now) }
        requires possible { IsPossibleNeed (setting_of (model_of V.content self.now)) need.now }
        ensures { (result ≡ true) ↔ IsServing (setting_of (model_of V.content self.now)) need.now id }
    {
        let versions = RootVersions {
            book: self.book,
            root: self.root,
            members: &self.members,
        };
        match self.version(need.first) {
            None => false,
            Some(first) => {
                let second = self.version_if_any(need.second);
                match self.version(id) {
                    None => false,
                    Some(server) => {
                        versions.serves_if_any(need.ask(), first, second, Some(server))
                    }
                }
            }
        }
    }
}
