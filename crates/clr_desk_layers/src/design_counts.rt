//! How much a design changes, and the first row that it removes where it mustn't remove any.

ghost use Rattle.std.specs.Prelude.{◌≡◌, IfOk};
ghost use Rattle.clr_designs.specs.Counts.{edit_counts_text};
ghost use Rattle.clr_desk_layers.specs.Counted.{removal_in};
ghost use Rattle.clr_desk_prints.specs.NameHints.{with_lines};
ghost use Rattle.clr_desk_prints.specs.Printing.{printed};

use clr_change::Edit;
use clr_designs::{edit_counts_line, first_removed};
use clr_desk_prints::Print;
use clr_rows::CellId;
use std::alloc::{AllocError, Global};

/// Returns the cell of the first row that edits remove, where they mustn't remove any.
pub fn removal_in(may_remove: bool, edits: &[Edit]) -> Option<CellId>
    ensures { result ≡ removal_in may_remove edits.now }
{
    if may_remove {
        None
    } else {
        first_removed(edits)
    }
}

/// Returns a print with how many rows edits add, change and remove behind its notes.
pub fn with_counts(alloc: Global, print: Print, edits: &[Edit]) -> Result<Print, AllocError>
    ensures { IfOk result (λ p. printed p ≡ with_lines (edit_counts_text edits.now) (printed print)) }
{
    let line = edit_counts_line(alloc, edits)?;
    print.with_notes(line.as_slice())
}
