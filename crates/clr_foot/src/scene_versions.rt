//! Scenes of change sets over a root, and their versions by name.

ghost use Rattle.std.specs.Prelude.{◌≡◌, ◌≤◌, length, map, option_map, None, IfOk, MatchOption, MatchResult};
ghost use Rattle.clr_needs.specs.declared.limits.TheConstants.{MOST_MEMBERS};
ghost use Rattle.clr_needs.specs.Members.{AreApart, IsSceneFault, lifetime, setting};
ghost use Rattle.clr_foot.specs.Scenes.{model_of, setting_in, setting_of};
ghost use Rattle.clr_needs.specs.Settings.{version};
ghost use Rattle.clr_row_versions.specs.Versions.{FitsSetting, IsNamed};

use crate::new_rows::file_new_rows;
use crate::scenes::Scene;
use clr_change::ChangeSet;
use clr_finders::RowFinder;
use clr_needs::{Life, SceneFault, VersionId};
use clr_row_versions::{Members, RootVersions, Version};
use clr_rows::RowView;
use clr_rules::RuleBook;
use std::alloc::Global;

impl<'a, V: RowView, F: RowFinder> Scene<'a, V, F> {
    /// Returns the scene of a book, a root, a finder that has settled the root's rows, and at most
    /// `MOST_MEMBERS` change sets. Fails with `SharedCell` where two of them change one cell, with
    /// the least such cell and the first two that change it, and with `OutOfMemory` if memory runs out.
    /// For example, where the first and the third change set insert main 20, it fails with main 20 and the members 0
    /// and 2.
    pub fn new(
        alloc: Global,
        book: &'a RuleBook,
        root: &'a V,
        finder: &'a F,
        sets: Vec<&'a ChangeSet>,
    ) -> Result<Scene<'a, V, F>, SceneFault>
        requires few { length sets.items ≤ MOST_MEMBERS }
        requires fit { FitsSetting (setting book.now (V.content root.now) (map (λ s. s.now) sets.items)) }
        ensures model { IfOk result (λ scene. model_of V.content scene ≡ record {
          rules = book.entry.now;
          root = V.content root.entry.now;
          sets = map (λ s. s.now) sets.entry.items;
          finder = finder.entry.now;
        }) }
        ensures apart { MatchResult result (λ scene. AreApart (model_of V.content scene).sets) (IsSceneFault (map (λ s. s.now) sets.entry.items)) }
    {
        let members = Members::new(alloc, sets)?;
        match members.least_shared() {
            Some(shared) => Err(SceneFault::SharedCell {
                cell: shared.cell,
                first: shared.first,
                second: shared.second,
            }),
            None => {
                let new_rows = file_new_rows(alloc, &members, book)?;
                Ok(Scene {
                    alloc,
                    book,
                    root,
                    finder,
                    members,
                    new_rows,
                })
            }
        }
    }

    /// Returns the version of a name, if there is one.
    pub(crate) fn version(&self, id: VersionId) -> Option<Version<'_>>
        ensures { MatchOption result (version (setting_in V.content self.now) id ≡ None) (IsNamed (setting_in V.content self.now) id) }
    {
        let versions = RootVersions {
            book: self.book,
            root: self.root,
            members: &self.members,
        };
        versions.version(id)
    }

    /// Returns how long the version of a name lives, if there is one.
    /// For example, where member 0 deletes node 9 and inserts node 10, the old version of node 9 lives `Without(0)` and
    /// the new one of node 10 `With(0)`. The old version of a main that no member changes lives `Always`.
    pub fn life(&self, id: VersionId) -> Option<Life>
        ensures { option_map lifetime result ≡ option_map (λ l. l.life) (version (setting_of (model_of V.content self.now)) id) }
    {
        match self.version(id) {
            None => None,
            Some(version) => Some(version.life),
        }
    }
}
