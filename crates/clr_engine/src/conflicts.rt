//! The cells of a workspace in conflict with its parent.

ghost use Rattle.std.specs.Prelude.{◌≡◌, IfOk};
ghost use Rattle.clr_rows.specs.Contents.{conflicts};

use clr_change::{ChangeSet, are_same};
use clr_rows::{CellId, RowView};
use clr_tree::View;
use std::alloc::{AllocError, Global};

/// Returns the changed cells where the parent's row isn't the row before the change, in the order of cells.
pub(crate) fn conflicting_cells(
    alloc: Global,
    changes: &ChangeSet,
    parent: &View,
) -> Result<Vec<CellId>, AllocError>
    ensures { IfOk result (λ cells. cells.items ≡ conflicts parent.now changes.now) }
{
    let mut cells = Vec::new(alloc);
    for (cell, change) in changes.iter() {
        if !are_same(parent.row(*cell), change.before.as_ref()) {
            cells.push(*cell)?;
        }
    }
    Ok(cells)
}
