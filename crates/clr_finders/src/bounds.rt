//! Where the cells behind a given one begin.

ghost use Rattle.std.specs.Prelude.{◌≡◌};
ghost use Rattle.clr_finders.specs.CellBounds.{bound_behind};

use clr_rows::CellId;
use std::ops::Bound;

/// Returns where the cells behind a given one begin, for a range of a tree; without one, all cells
/// are in the range.
pub fn bound_behind(after: Option<CellId>) -> Bound<CellId>
    ensures { result ≡ bound_behind after }
{
    match after {
        Some(cell) => Bound::Excluded(cell),
        None => Bound::Unbounded,
    }
}
