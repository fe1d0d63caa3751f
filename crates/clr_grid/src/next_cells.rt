//! The next cell behind a given one.

ghost use Rattle.std.specs.Prelude.{◌≡◌, true, option_to_list};
ghost use Rattle.clr_finders.specs.NextCells.{IsNextOf};
ghost use Rattle.clr_finders.specs.CellLists.{is_one_of};

use clr_finders::bound_behind;
use clr_rows::CellId;
use std::collections::BTreeSet;
use std::ops::Bound;

/// Returns the first cell of a set behind a given cell, if there is one.
pub(crate) fn next_key(cells: &BTreeSet<CellId>, after: Option<CellId>) -> Option<CellId>
    ensures { IsNextOf (λ q. is_one_of cells.now.keys q ≡ true) after result }
{
    match cells.range((bound_behind(after), Bound::Unbounded)).next() {
        Some(cell) => Some(*cell),
        None => None,
    }
}

/// Returns a cell, if there is one, and it stands behind the given one.
pub(crate) fn next_one(cell: Option<CellId>, after: Option<CellId>) -> Option<CellId>
    ensures { IsNextOf (λ q. is_one_of (option_to_list cell) q ≡ true) after result }
{
    let cell = cell?;
    match after {
        Some(before) if !before.cmp(&cell).is_lt() => None,
        _ => Some(cell),
    }
}
