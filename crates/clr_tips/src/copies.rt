//! Copies of edits.

ghost use Rattle.std.specs.Prelude.{◌≡◌, IfOk};

use clr_change::{Edit, Edits};
use std::alloc::{AllocError, Global};

/// Returns a copy of an edit.
pub fn copy_edit(edit: &Edit) -> Result<Edit, AllocError>
    ensures { IfOk result (λ copy. copy ≡ edit.now) }
{
    match edit {
        Edit::Insert(cell, row) => Ok(Edit::Insert(*cell, row.copy()?)),
        Edit::Update(cell, row) => Ok(Edit::Update(*cell, row.copy()?)),
        Edit::Delete(cell) => Ok(Edit::Delete(*cell)),
    }
}

/// Returns a copy of edits.
pub fn copy_edits(alloc: Global, edits: &Edits) -> Result<Edits, AllocError>
    ensures { IfOk result (λ copies. copies ≡ edits.now) }
{
    let mut copies = Vec::new(alloc);
    for edit in edits.as_slice() {
        copies.push(copy_edit(edit)?)?;
    }
    Ok(Edits::new(copies))
}
