//! Rows of cuts made, and their versions by name.

ghost use Rattle.std.specs.Prelude.{◌≡◌, ◌≤◌, length, map, None, IfOk, MatchOption};
ghost use Rattle.clr_needs.specs.declared.limits.TheConstants.{MOST_MEMBERS};
ghost use Rattle.clr_needs.specs.Members.{setting};
ghost use Rattle.clr_needs.specs.Settings.{version};
ghost use Rattle.clr_row_versions.specs.Versions.{FitsSetting, IsNamed, version_of};
ghost use Rattle.clr_cut_rows.specs.Searches.{aim_of, model_of, setting_in};

use crate::cut_rows::CutRows;
use crate::new_rows::file_new_rows;
use clr_change::ChangeSet;
use clr_finders::RowFinder;
use clr_needs::VersionId;
use clr_reach::Aim;
use clr_row_versions::{Members, RootVersions, Version};
use clr_rows::{CellId, RowView};
use clr_rules::RuleBook;
use std::alloc::{AllocError, Global};

impl<'a, V: RowView, F: RowFinder> CutRows<'a, V, F> {
    /// Returns the rows of a cut for an aim: those of its root, with a finder that has settled them,
    /// and what each of at most `MOST_MEMBERS` members changes. It fails only if memory runs out.
    pub fn new(
        alloc: Global,
        aim: Aim,
        book: &'a RuleBook,
        root: &'a V,
        finder: &'a F,
        sets: Vec<&'a ChangeSet>,
    ) -> Result<CutRows<'a, V, F>, AllocError>
        requires few { length sets.items ≤ MOST_MEMBERS }
        requires fit { FitsSetting (setting book.now (V.content root.now) (map (λ s. s.now) sets.items)) }
        ensures aim { IfOk result (λ cut. aim_of cut ≡ aim) }
        ensures model { IfOk result (λ cut. model_of V.content cut ≡ record {
          rules = book.entry.now;
          root = V.content root.entry.now;
          sets = map (λ s. s.now) sets.entry.items;
          finder = finder.entry.now;
        }) }
    {
        let members = Members::new(alloc, sets)?;
        let new_rows = file_new_rows(alloc, &members, book)?;
        Ok(CutRows {
            aim,
            book,
            root,
            finder,
            members,
            new_rows,
        })
    }

    /// Returns the old version of a cell, or the new one, if there is one.
    pub(crate) fn version(&self, fresh: bool, cell: CellId) -> Option<Version<'_>>
        ensures { MatchOption result (version (setting_in V.content self.now) (version_of fresh cell) ≡ None)
            (IsNamed (setting_in V.content self.now) (version_of fresh cell)) }
    {
        let versions = RootVersions {
            book: self.book,
            root: self.root,
            members: &self.members,
        };
        versions.version(VersionId { cell, fresh })
    }
}
