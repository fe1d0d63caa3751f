//! Of how many rows a rule is asked, and which rows may serve or be subjects.

ghost use Rattle.std.specs.Prelude.{◌≡◌, ◌<◌, length};
ghost use Rattle.std.specs.Option.{option_copied};
ghost use Rattle.clr_finders.specs.Sharing.{may_serve_under};
ghost use Rattle.clr_foot.specs.Touches.{is_looked_up, is_of_table, may_be_subject};
ghost use Rattle.clr_row_versions.specs.Candidates.{may_be_paired};
ghost use Rattle.clr_row_versions.specs.Versions.{row_of};

use crate::scenes::Scene;
use clr_finders::{RowFinder, may_serve};
use clr_row_versions::{Version, may_be_paired};
use clr_rows::{CellId, RowView};
use clr_rules::Side;

/// Returns whether there is a side, and a cell is of its table.
fn is_of_table(side: Option<&Side>, cell: CellId) -> bool
    ensures { result ≡ is_of_table (option_copied side.entry) cell }
{
    match side {
        Some(side) => side.table == cell.table,
        None => false,
    }
}

impl<V: RowView, F: RowFinder> Scene<'_, V, F> {
    /// Returns whether the rule is asked of two rows and a version is of a side of these.
    pub(crate) fn may_be_paired(&self, rule: u16, version: Version) -> bool
        requires { rule < length self.now.book.now }
        ensures { result ≡ may_be_paired self.now.book.now rule (row_of version.entry) }
    {
        may_be_paired(self.book, rule, version)
    }

    /// Returns whether some row of the table of a cell may be a subject.
    #[tactic(auto, unfolding(crate::specs::Touches::may_be_subject))]
    fn may_be_subject(&self, rule: u16, cell: CellId) -> bool
        requires { rule < length self.now.book.now }
        ensures { result ≡ may_be_subject self.now.book.now rule cell }
    {
        let sides = self.book.rule(rule).sides();
        is_of_table(sides.alone, cell)
            || is_of_table(sides.first, cell)
            || is_of_table(sides.second, cell)
    }

    /// Returns whether the row at a cell is looked up where servers alone are looked for, or else subjects.
    pub(crate) fn is_looked_up(&self, servers: bool, rule: u16, cell: CellId) -> bool
        requires { rule < length self.now.book.now }
        ensures { result ≡ is_looked_up servers self.now.book.now rule cell }
    {
        servers || self.may_be_subject(rule, cell)
    }

    /// Returns whether a version is of the side that serves.
    #[tactic(auto, unfolding(clr_finders::specs::Sharing::may_serve_under))]
    pub(crate) fn may_serve(&self, rule: u16, version: Version) -> bool
        requires { rule < length self.now.book.now }
        ensures { result ≡ may_serve_under self.now.book.now rule (row_of version.entry) }
    {
        may_serve(self.book.rule(rule), version.as_held())
    }
}
