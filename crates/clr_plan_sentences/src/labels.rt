//! Cells in words.

ghost use Rattle.std.specs.Prelude.{◌≡◌, ◌++◌, OnOk, string_bytes};
ghost use Rattle.clr_plan_sentences.specs.Labels.{cell_label};

use clr_rows::{CellId, Schema};
use std::alloc::AllocError;

/// Adds a cell as `main 20`.
pub fn add_label(text: &mut String, schema: &Schema, cell: CellId) -> Result<(), AllocError>
    ensures { OnOk result (string_bytes text.new ≡ string_bytes text.old ++ cell_label schema.now cell) }
{
    let key = cell.key;
    text.push_str(schema.name_of_table(cell.table))?;
    text.push_str(" ")?;
    write!(text, "{key}")
}
