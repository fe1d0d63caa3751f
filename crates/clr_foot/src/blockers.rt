//! The members that break a need.

ghost use Rattle.std.specs.Prelude.{IfOk};
ghost use Rattle.clr_needs.specs.Needs.{IsPossibleNeed};
ghost use Rattle.clr_needs.specs.Picks.{Blocks};
ghost use Rattle.clr_foot.specs.Scenes.{IsReady, model_of, setting_of};

use crate::scenes::Scene;
use clr_finders::RowFinder;
use clr_needs::Need;
use clr_row_versions::RootVersions;
use clr_rows::RowView;
use std::alloc::AllocError;

impl<V: RowView, F: RowFinder> Scene<'_, V, F> {
    /// Returns the members that break a possible need, by position, ascending: those that bring a
    /// subject or take a version away that serves it.
    /// For example, where no two mains may have one code, member 0 gives main 1 another code, and member 1 inserts
    /// main 30 with the code that main 1 had, member 1 alone breaks the need of the old main 1 and the new main 30.
    pub fn blockers(&self, need: &Need) -> Result<Vec<u16>, AllocError>
        requires ready { IsReady F.settled (model_of V.content self.now) }
        requires possible { IsPossibleNeed (setting_of (model_of V.content self.now)) need.now }
        ensures { IfOk result (λ list. Blocks (setting_of (model_of V.content self.now)) need.now list.items) }
    {
        let servers = self.servers(need)?;
        let versions = RootVersions {
            book: self.book,
            root: self.root,
            members: &self.members,
        };
        let mut list = Vec::new(self.alloc);
        for position in 0..self.members.sets.len() {
            if versions.is_blocker(need, servers.as_slice(), position as u16) {
                list.push(position as u16)?;
            }
        }
        Ok(list)
    }
}
