//! What is printed where a table has no layer, or layers make no design: one note, which says why.
ghost use Rattle.std.specs.Prelude.{◌≡◌, IfOk};
ghost use Rattle.clr_desk_layers.specs.Counted.{removal_print};
ghost use Rattle.clr_desk_layers.specs.Since.{other_schema_word};
ghost use Rattle.clr_desk_layers.specs.Layers.{no_workspace_word, unfit_print, unknown_print, wkt_column_word};
ghost use Rattle.clr_layer_faults.specs.UnfitLines.{no_table_word};
ghost use Rattle.clr_desk_prints.specs.Printing.{printed};

use clr_desk_prints::Print;
use clr_layer_faults::unfit_line;
use clr_lines::add_cell;
use clr_rows::{CellId, Schema};
use std::alloc::{AllocError, Global};

/// Returns the print of what can't be a layer or a design: no text, and the line that says why as its only note, which counts as a refusal.
pub fn unfit_print(alloc: Global, why: &[u8], name: &[u8]) -> Result<Print, AllocError>
    ensures { IfOk result (λ p. printed p ≡ unfit_print why.now name.now) }
{
    let line = unfit_line(alloc, why, name)?;
    Ok(Print::new(Vec::new(alloc), line, true, false))
}

/// Returns what is printed where no table has this name.
pub(crate) fn no_table(alloc: Global, name: &str) -> Result<Print, AllocError>
    ensures { IfOk result (λ p. printed p ≡ unknown_print no_table_word name.now) }
{
    let print = unfit_print(alloc, b"8 NoTable", name.as_bytes())?;
    Ok(print.refused_for(true))
}

/// Returns what is printed where no workspace has this name.
pub(crate) fn no_workspace(alloc: Global, name: &str) -> Result<Print, AllocError>
    ensures { IfOk result (λ p. printed p ≡ unfit_print no_workspace_word name.now) }
{
    unfit_print(alloc, b"2 NoWorkspace", name.as_bytes())
}

/// Returns what is printed where a column of the table of this name is called as the field of shapes.
pub(crate) fn wkt_column(alloc: Global, name: &str) -> Result<Print, AllocError>
    ensures { IfOk result (λ p. printed p ≡ unfit_print wkt_column_word name.now) }
{
    unfit_print(alloc, b"9 WktColumn", name.as_bytes())
}

/// Returns what is printed where the table of this name isn't the same in the office that layers were copied from.
pub fn other_schema(alloc: Global, table: &str) -> Result<Print, AllocError>
    ensures { IfOk result (λ p. printed p ≡ unfit_print other_schema_word table.now) }
{
    unfit_print(alloc, b"10 OtherSchema", table.as_bytes())
}

/// Returns what is printed where a design would remove the row at this cell, and mustn't.
pub fn removal(alloc: Global, schema: &Schema, cell: CellId) -> Result<Print, AllocError>
    ensures { IfOk result (λ p. printed p ≡ removal_print schema.now cell) }
{
    let mut row = Vec::new(alloc);
    add_cell(&mut row, schema, cell)?;
    unfit_print(alloc, b"11 Removes", row.as_slice())
}
