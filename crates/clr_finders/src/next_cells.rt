//! The lesser of two cells, where searches go on side by side.

ghost use Rattle.std.specs.Prelude.{◌≡◌};
ghost use Rattle.clr_finders.specs.NextCells.{lesser_cell};

use clr_rows::CellId;

/// Returns the lesser of two cells, or the one that there is.
pub fn lesser_cell(one: Option<CellId>, other: Option<CellId>) -> Option<CellId>
    ensures { result ≡ lesser_cell one other }
{
    match (one, other) {
        (Some(first), Some(second)) => {
            if second.cmp(&first).is_lt() {
                other
            } else {
                one
            }
        }
        (Some(_), None) => one,
        (None, _) => other,
    }
}
