//! Members that no possible need ties to one another.

ghost use Rattle.std.specs.Prelude.{◌<◌, length, IfOk};
ghost use Rattle.clr_needs.specs.Independence.{IsIndependence};
ghost use Rattle.clr_foot.specs.Involvement.{IsToldInvolving};
ghost use Rattle.clr_needs.specs.Needs.{IsPossibleNeed};
ghost use Rattle.clr_foot.specs.Scenes.{IsReady, model_of, setting_in, setting_of};

use crate::scenes::Scene;
use clr_finders::RowFinder;
use clr_needs::Need;
use clr_row_versions::RootVersions;
use clr_rows::RowView;
use std::alloc::AllocError;

impl<V: RowView, F: RowFinder> Scene<'_, V, F> {
    /// Returns whether a possible need involves a member: the life of a subject names it, or that of a
    /// version that serves.
    fn involves(&self, need: &Need, position: u16) -> Result<bool, AllocError>
        requires ready { IsReady F.settled (model_of V.content self.now) }
        requires possible { IsPossibleNeed (setting_in V.content self.now) need.now }
        ensures { IfOk result (IsToldInvolving (setting_in V.content self.now) position need.now) }
    {
        let versions = RootVersions {
            book: self.book,
            root: self.root,
            members: &self.members,
        };
        if versions.has_named_subject(need, position) {
            return Ok(true);
        }
        let servers = self.servers(need)?;
        match versions.first_naming(servers.as_slice(), position) {
            None => Ok(false),
            Some(_) => Ok(true),
        }
    }

    /// Returns whether two members are independent: no possible need has among its subjects and
    /// serving versions both a version whose life names the first member and one whose life names
    /// the second. Members are numbered by position. All possible needs count, whether changes
    /// touch them or not. Only those that involve the first member are looked at.
    /// For example, two members of which each inserts a main are independent if these mains are far apart and have
    /// different codes. Where mains 1 and 2 cross at a node, a member that deletes main 1 and one that deletes main 2
    /// aren't independent, although they touch no need.
    pub fn independent(&self, first: u16, second: u16) -> Result<bool, AllocError>
        requires ready { IsReady F.settled (model_of V.content self.now) }
        requires first { first < length (model_of V.content self.now).sets }
        requires second { second < length (model_of V.content self.now).sets }
        ensures { IfOk result (IsIndependence (setting_of (model_of V.content self.now)) first second) }
    {
        let needs = self.needs_involving(first)?;
        for need in &needs {
            if self.involves(need, second)? {
                return Ok(false);
            }
        }
        Ok(true)
    }
}
