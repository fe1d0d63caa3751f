//! Rows that are found by cell.

ghost use Rattle.std.specs.Prelude.{◌≡◌};
ghost use Rattle.std.specs.Option.{option_copied};
ghost use Rattle.clr_rows.specs.Contents.{Content, row_at};

use crate::cells::CellId;
use crate::rows::Row;

/// Rows that are found by cell.
pub trait RowView {
    ghost content: { Self → Content };

    /// Returns the row at a cell, or none.
    fn row(&self, cell: CellId) -> Option<&Row>
        ensures { option_copied result ≡ row_at (content self.now) cell };
}
