//! The edits that lead from one content to another.

ghost use Rattle.std.specs.Prelude.{◌≡◌, map, IfOk};
ghost use Rattle.std.specs.FinMap as finite;
ghost use Rattle.clr_change.specs.Edits.{after_edits};
ghost use Rattle.clr_layer_changes.specs.Changes.{edit_of, edits_between};

use clr_change::{ChangeSet, Edit, Edits};
use clr_rows::{CellId, Change, Sheet};
use std::alloc::{AllocError, Global};

/// Returns the edit that makes a change at a cell.
fn edit_of(cell: CellId, change: &Change) -> Result<Edit, AllocError>
    ensures { IfOk result (λ edit. edit ≡ edit_of (cell, change.now)) }
{
    match (&change.before, &change.after) {
        (_, None) => Ok(Edit::Delete(cell)),
        (None, Some(row)) => Ok(Edit::Insert(cell, row.copy()?)),
        (Some(_), Some(row)) => Ok(Edit::Update(cell, row.copy()?)),
    }
}

/// Returns the edits that make changes, in the order of cells.
pub(crate) fn edits_of(alloc: Global, changes: &ChangeSet) -> Result<Edits, AllocError>
    ensures { IfOk result (λ edits. edits ≡ map edit_of (finite.entries changes.now)) }
{
    let mut edits = Vec::new(alloc);
    for (cell, change) in changes.iter() {
        edits.push(edit_of(*cell, change)?)?;
    }
    Ok(Edits::new(edits))
}

/// Returns the edits that lead from one content to another: one for each cell at which they differ, in the order of cells. Where they don't
/// differ there is none.
pub fn edits_between(alloc: Global, base: &Sheet, current: &Sheet) -> Result<Edits, AllocError>
    ensures edits { IfOk result (λ edits. edits ≡ edits_between base.now current.now) }
    ensures leads { IfOk result (λ edits. after_edits base.now edits ≡ current.now) }
{
    let changes = ChangeSet::between(alloc, base, current)?;
    edits_of(alloc, &changes)
}
