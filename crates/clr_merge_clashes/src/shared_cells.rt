//! The least cell that two members change.
ghost use Rattle.std.specs.Prelude.{◌≡◌};
ghost use Rattle.clr_merge_clashes.specs.SharedCells.{shared_cell};

use clr_change::ChangeSet;
use clr_rows::CellId;

/// Returns the least cell that two members change, if there is one.
pub(crate) fn shared_cell(first: &ChangeSet, second: &ChangeSet) -> Option<CellId>
    ensures { result ≡ shared_cell first.now second.now }
{
    for (cell, _) in first.iter() {
        if second.get(*cell).is_some() {
            return Some(*cell);
        }
    }
    None
}
