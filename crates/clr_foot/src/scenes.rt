//! Scenes: change sets over a root's rows.

ghost use Rattle.std.specs.Prelude.{map};
ghost use Rattle.clr_foot.specs.NewRows.{AreNewRowsFiled};

use clr_finders::RowFinder;
use clr_row_versions::Members;
use clr_rules::RuleBook;
use std::alloc::Global;

/// A root's rows with what each member changes there, and a finder of those rows. A scene copies no
/// row of the root. The rows that members bring stand in a finder of the same kind.
#[derive(Drop)]
pub struct Scene<'a, V, F: RowFinder> {
    pub(crate) alloc: Global,
    pub(crate) book: &'a RuleBook,
    pub(crate) root: &'a V,
    pub(crate) finder: &'a F,
    pub(crate) members: Members<'a>,
    pub(crate) new_rows: F,
    ghost filed: { AreNewRowsFiled (F.settled new_rows) book.now (map (λ s. s.now) members.sets.items) },
}
