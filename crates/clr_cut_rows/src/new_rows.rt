//! The rows that members bring, filed by their spots.

ghost use Rattle.std.specs.Prelude.{map, IfOk};
ghost use Rattle.clr_foot.specs.NewRows.{AreNewRowsFiled};
ghost use Rattle.clr_row_versions.specs.Versions.{FitNewRows};

use clr_finders::RowFinder;
use clr_row_versions::Members;
use clr_rules::RuleBook;
use std::alloc::{AllocError, Global};

/// Returns a finder of the rows that members bring.
pub(crate) fn file_new_rows<F: RowFinder>(
    alloc: Global,
    members: &Members,
    book: &RuleBook,
) -> Result<F, AllocError>
    requires fit { FitNewRows book.now (map (λ s. s.now) members.now.sets.items) }
    ensures { IfOk result (λ finder. AreNewRowsFiled (F.settled finder) book.now (map (λ s. s.now) members.now.sets.items)) }
{
    let mut finder = F::without_rows(alloc);
    for cell in &members.cells {
        if let Some(version) = members.new_version(*cell) {
            finder.note(book, *cell, Some(version.row))?;
            finder.settle();
        }
    }
    Ok(finder)
}
