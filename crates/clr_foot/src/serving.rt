//! The versions that a server may serve: under a crossing those alone on which it lies.

ghost use Rattle.std.specs.Prelude.{◌≡◌, ◌<◌, length, IfOk};
ghost use Rattle.clr_foot.specs.Scenes.{IsReady, model_of, setting_in};
ghost use Rattle.clr_foot.specs.Serving.{MayBeServed, is_crossing_under};
ghost use Rattle.clr_row_versions.specs.Versions.{FindsAll, IsAt, row_of};

use crate::scenes::Scene;
use clr_finders::RowFinder;
use clr_row_versions::{RootVersions, Version};
use clr_rows::RowView;
use clr_rules::Rule;
use std::alloc::AllocError;

impl<V: RowView, F: RowFinder> Scene<'_, V, F> {
    /// Returns whether a rule is a crossing. Under another rule no row that is near is left out.
    #[tactic(auto, unfolding(crate::specs::Serving::is_crossing_under))]
    fn is_crossing(&self, rule: u16) -> bool
        requires { rule < length self.now.book.now }
        ensures { result ≡ is_crossing_under self.now.book.now rule }
    {
        match self.book.rule(rule) {
            Rule::Crossing { .. } => true,
            _ => false,
        }
    }

    /// Returns the versions that share with a server and that it may serve.
    pub(crate) fn served_near(
        &self,
        rule: u16,
        server: Version,
    ) -> Result<Vec<Version<'_>>, AllocError>
        requires number { rule < length self.now.book.now }
        requires ready { IsReady F.settled (model_of V.content self.now) }
        requires at { IsAt (setting_in V.content self.now) server }
        ensures { IfOk result (λ list. FindsAll (setting_in V.content self.now) (MayBeServed self.now.book.now rule (row_of server.entry)) list.items) }
    {
        let near = self.all_near(rule, server)?;
        if !self.is_crossing(rule) {
            return Ok(near);
        }
        let versions = RootVersions {
            book: self.book,
            root: self.root,
            members: &self.members,
        };
        let mut list = Vec::with_capacity(self.alloc, near.len())?;
        for version in &near {
            if versions.may_be_served(rule, server, *version) {
                list.push(*version)?;
            }
        }
        Ok(list)
    }
}
