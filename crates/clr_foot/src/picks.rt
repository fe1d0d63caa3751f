//! The witnesses that a planner names for a need.

ghost use Rattle.std.specs.Prelude.{IfOk};
ghost use Rattle.clr_needs.specs.Needs.{IsPossibleNeed};
ghost use Rattle.clr_needs.specs.Picks.{Picks};
ghost use Rattle.clr_foot.specs.Scenes.{IsReady, model_of, setting_of};

use crate::first_servers::Sought;
use crate::scenes::Scene;
use clr_finders::RowFinder;
use clr_needs::{Need, VersionId};
use clr_row_versions::RootVersions;
use clr_rows::RowView;
use std::alloc::AllocError;

impl<V: RowView, F: RowFinder> Scene<'_, V, F> {
    /// Returns the witnesses that a planner names for a possible need, or none where nothing covers
    /// it: the least version that covers it alone. If none does, they are those of the first member
    /// that takes a serving version away and brings another: the least that it takes away and the
    /// least that it brings.
    /// For example, where two mains cross at node 9, and a member deletes node 9 and inserts node 10 at the same point,
    /// the witnesses are the old version of node 9 and the new one of node 10. Where node 11 stands there too and no
    /// member changes it, it is the only witness.
    pub fn pick(&self, need: &Need) -> Result<Option<(VersionId, Option<VersionId>)>, AllocError>
        requires ready { IsReady F.settled (model_of V.content self.now) }
        requires possible { IsPossibleNeed (setting_of (model_of V.content self.now)) need.now }
        ensures { IfOk result (Picks (setting_of (model_of V.content self.now)) need.now) }
    {
        if let Some(witness) = self.early_server(need, Sought::Lasting)? {
            return Ok(Some((witness, None)));
        }
        let servers = self.servers(need)?;
        let versions = RootVersions {
            book: self.book,
            root: self.root,
            members: &self.members,
        };
        Ok(versions.pick_of(need, servers.as_slice()))
    }
}
