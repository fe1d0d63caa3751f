//! The rows of a cut, as rows that it may lack are held against them.

ghost use Rattle.std.specs.Prelude.{map};
ghost use Rattle.clr_foot.specs.NewRows.{AreNewRowsFiled};

use clr_finders::RowFinder;
use clr_reach::Aim;
use clr_row_versions::Members;
use clr_rules::RuleBook;

/// The rows of a cut and what each member changes there, with a finder of the rows and one of those
/// that members bring. It copies no row.
#[derive(Drop)]
pub struct CutRows<'a, V, F: RowFinder> {
    pub(crate) aim: Aim,
    pub(crate) book: &'a RuleBook,
    pub(crate) root: &'a V,
    pub(crate) finder: &'a F,
    pub(crate) members: Members<'a>,
    pub(crate) new_rows: F,
    ghost filed: { AreNewRowsFiled (F.settled new_rows) book.now (map (λ s. s.now) members.sets.items) },
}
