//! How many rows some edits add, change and remove, and the first that they remove.

ghost use Rattle.std.specs.Prelude.{◌≡◌, count_by, IfOk};
ghost use Rattle.clr_designs.specs.Counts.{edit_counts_text, first_removed, is_addition, is_change, is_removal};

use clr_change::Edit;
use clr_lines::add_count;
use clr_rows::CellId;
use std::alloc::{AllocError, Global};

/// Returns whether an edit adds a row.
fn is_addition(edit: &Edit) -> bool
    ensures { result ≡ is_addition edit.now }
{
    matches!(edit, Edit::Insert(_, _))
}

/// Returns whether an edit changes a row.
fn is_change(edit: &Edit) -> bool
    ensures { result ≡ is_change edit.now }
{
    matches!(edit, Edit::Update(_, _))
}

/// Returns whether an edit removes a row.
fn is_removal(edit: &Edit) -> bool
    ensures { result ≡ is_removal edit.now }
{
    matches!(edit, Edit::Delete(_))
}

/// Returns how many of some edits add a row.
fn count_additions(edits: &[Edit]) -> usize
    ensures { result ≡ count_by is_addition edits.now }
{
    edits.iter().filter(|edit| is_addition(edit)).count()
}

/// Returns how many of some edits change a row.
fn count_changes(edits: &[Edit]) -> usize
    ensures { result ≡ count_by is_change edits.now }
{
    edits.iter().filter(|edit| is_change(edit)).count()
}

/// Returns how many of some edits remove a row.
fn count_removals(edits: &[Edit]) -> usize
    ensures { result ≡ count_by is_removal edits.now }
{
    edits.iter().filter(|edit| is_removal(edit)).count()
}

/// Returns how many rows some edits add, change and remove, on a line, as `adds 2, changes 1, removes 0`.
pub fn edit_counts_line(alloc: Global, edits: &[Edit]) -> Result<Vec<u8>, AllocError>
    ensures { IfOk result (λ line. line.items ≡ edit_counts_text edits.now) }
{
    let mut line = Vec::from_slice(alloc, b"adds ")?;
    add_count(&mut line, count_additions(edits))?;
    line.extend_from_slice(b", changes ")?;
    add_count(&mut line, count_changes(edits))?;
    line.extend_from_slice(b", removes ")?;
    add_count(&mut line, count_removals(edits))?;
    line.push(b'\n')?;
    Ok(line)
}

/// Returns the cell of the first row that edits remove, or none where they remove no row.
pub fn first_removed(edits: &[Edit]) -> Option<CellId>
    ensures { result ≡ first_removed edits.now }
{
    for edit in edits {
        if let Edit::Delete(cell) = edit {
            return Some(*cell);
        }
    }
    None
}
