//! The rows that members bring: filed by their spots, and held against one another.

ghost use Rattle.std.specs.Prelude.{◌≡◌, ◌<◌, length, map, IfOk, OnOk};
ghost use Rattle.clr_foot.specs.NewRows.{AreNewRowsFiled};
ghost use Rattle.clr_foot.specs.Scenes.{setting_in};
ghost use Rattle.clr_new_pairs.specs.NewPairs.{IsNeedOfTwo, Passes};
ghost use Rattle.clr_row_versions.specs.Gains.{Reaches};
ghost use Rattle.clr_row_versions.specs.Versions.{AreAt, FitNewRows, FitsSetting};

use crate::scenes::Scene;
use clr_finders::RowFinder;
use clr_needs::Need;
use clr_new_pairs::NewPairs;
use clr_row_versions::{Members, RootVersions, Version};
use clr_rows::RowView;
use clr_rules::RuleBook;
use std::alloc::{AllocError, Global};

/// Returns the rows that members bring, filed by their spots.
pub(crate) fn file_new_rows<F: RowFinder>(
    alloc: Global,
    members: &Members,
    book: &RuleBook,
) -> Result<F, AllocError>
    requires fit { FitNewRows book.now (map (λ s. s.now) members.now.sets.items) }
    ensures { IfOk result (λ finder. AreNewRowsFiled (F.settled finder) book.now (map (λ s. s.now) members.now.sets.items)) }
{
    let mut finder = F::without_rows(alloc);
    for cell in &members.cells {
        if let Some(version) = members.new_version(*cell) {
            finder.note(book, *cell, Some(version.row))?;
            finder.settle();
        }
    }
    Ok(finder)
}

impl<V: RowView, F: RowFinder> Scene<'_, V, F> {
    /// Adds the needs of two of some versions. If it is leaves_out, it may leave needs out that stand
    /// behind one of two new versions in the list, under a rule by which no row serves. It fails for
    /// want of memory alone.
    pub(crate) fn add_of_new_pairs(
        &self,
        rule: u16,
        leaves_out: bool,
        fresh: &[Version],
        needs: &mut Vec<Need>,
    ) -> Result<(), AllocError>
        requires number { rule < length self.now.book.now }
        requires fit { FitsSetting (setting_in V.content self.now) }
        requires fresh { AreAt (setting_in V.content self.now) fresh.now }
        ensures { OnOk result (Reaches (Passes self.now.book.now leaves_out) (IsNeedOfTwo self.now.book.now rule fresh.now)
            (IsNeedOfTwo self.now.book.now rule fresh.now) needs.old.items needs.new.items) }
    {
        let versions = RootVersions {
            book: self.book,
            root: self.root,
            members: &self.members,
        };
        let pairs = NewPairs {
            alloc: self.alloc,
            versions,
        };
        pairs.add_of_new_pairs(rule, leaves_out, fresh, needs)
    }
}
