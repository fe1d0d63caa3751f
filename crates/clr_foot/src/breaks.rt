//! The least need that the merge of a scene's one member breaks.

ghost use Rattle.std.specs.Prelude.{◌≡◌, length, IfOk};
ghost use Rattle.clr_rows.specs.Contents.{row_at};
ghost use Rattle.clr_rules.specs.Needs.{IsFirstNewlyBroken};
ghost use Rattle.clr_needs.specs.Broken.{IsJudged, view_after_merge};
ghost use Rattle.clr_needs.specs.Needs.{IsPossibleNeed};
ghost use Rattle.clr_needs.specs.Settings.{DoChange};
ghost use Rattle.clr_foot.specs.Scenes.{IsReady, model_of, setting_in, setting_of};

use crate::first_servers::Sought;
use crate::scenes::Scene;
use clr_finders::RowFinder;
use clr_needs::Need;
use clr_row_versions::{RootVersions, broken_of};
use clr_rows::RowView;
use clr_rules::Broken;
use std::alloc::AllocError;

impl<V: RowView, F: RowFinder> Scene<'_, V, F> {
    /// Returns whether the merge breaks a possible need: its subjects stand after it, and no row that serves the need does.
    fn is_broken(&self, need: &Need) -> Result<bool, AllocError>
        requires ready { IsReady F.settled (model_of V.content self.now) }
        requires possible { IsPossibleNeed (setting_in V.content self.now) need.now }
        ensures { IfOk result (IsJudged (setting_in V.content self.now) need.now) }
    {
        let versions = RootVersions {
            book: self.book,
            root: self.root,
            members: &self.members,
        };
        if !versions.are_living(need) {
            return Ok(false);
        }
        if let Some(_) = self.early_server(need, Sought::Living)? {
            return Ok(false);
        }
        let servers = self.servers(need)?;
        match versions.first_living(servers.as_slice()) {
            None => Ok(true),
            Some(_) => Ok(false),
        }
    }

    /// Returns the least need that the root's rows with the changes of the one member over them break,
    /// and the root's rows don't: none where no more is broken than before. The changes differ from
    /// the root's rows.
    pub fn first_broken(&self) -> Result<Option<Broken>, AllocError>
        requires ready { IsReady F.settled (model_of V.content self.now) }
        requires one { length (model_of V.content self.now).sets ≡ 1 }
        requires changes { DoChange (setting_of (model_of V.content self.now)) }
        ensures { IfOk result (IsFirstNewlyBroken (model_of V.content self.now).rules (row_at (model_of V.content self.now).root)
            (view_after_merge (setting_of (model_of V.content self.now)))) }
    {
        let needs = self.list_touched(true)?;
        for need in &needs {
            if self.is_broken(need)? {
                return Ok(Some(broken_of(need)));
            }
        }
        Ok(None)
    }
}
