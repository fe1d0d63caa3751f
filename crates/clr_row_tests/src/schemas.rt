//! Schemas of texts, by `cases`, and what they answer.

use clr_row_test_kit::{cell, ordinal, row, schema, tables};
use clr_rows::{RowFault, Schema};
use std::alloc::Global;

/// Nodes with a kind, mains with a code, hydrants with the number of their main, and pipes with a
/// code.
pub(crate) const NETWORK: &str =
    "node/point/kind:text;main/segment/code:text;hydrant/point/main:number;pipe/path/code:text";

/// A table of each form, without columns.
pub(crate) const FORMS: &str = "bare/none/;place/point/;main/segment/;pipe/path/";

/// Returns `fits`, or why tables make no schema.
pub(crate) fn schema_text(alloc: Global, text: &str) -> Option<String> {
    match Schema::new(tables(alloc, text)?) {
        Ok(_) => String::from_str(alloc, "fits").ok(),
        Err(fault) => format!(in alloc; "{fault:?}").ok(),
    }
}

fn fault_text(alloc: Global, answer: Result<(), RowFault>) -> Option<String> {
    match answer {
        Ok(()) => String::from_str(alloc, "fits").ok(),
        Err(fault) => format!(in alloc; "{fault:?}").ok(),
    }
}

/// Returns `fits`, or why a row doesn't fit at its cell.
fn row_text(alloc: Global, schema: &Schema, text: &str) -> Option<String> {
    let (at, rest) = text.split_once(' ')?;
    let row = row(alloc, rest)?;
    fault_text(alloc, schema.fits(cell(at)?, &row))
}

/// Returns the number of a table, or of a column after the number of its table.
fn number_text(alloc: Global, schema: &Schema, text: &str) -> Option<String> {
    let found = match text.split_once(' ') {
        Some((table, column)) => schema.column(ordinal(table)?, column),
        None => schema.table(text),
    };
    format!(in alloc; "{found:?}").ok()
}

/// Returns the name and the form of a table, and how many tables there are.
fn table_text(alloc: Global, schema: &Schema, table: u16) -> Option<String> {
    let name = schema.table_name(table).unwrap_or("none");
    let form = schema.def(table).map(|table| table.shape);
    let count = schema.tables().len();
    format!(in alloc; "{name} {form:?} of {count}").ok()
}

/// Returns what is asked of the network.
pub(crate) fn network_text(alloc: Global, word: &str, text: &str) -> Option<String> {
    let schema = schema(alloc, NETWORK)?;
    match word {
        "number" => number_text(alloc, &schema, text),
        "table" => table_text(alloc, &schema, ordinal(text)?),
        "cell" => fault_text(alloc, schema.names_cell(cell(text)?)),
        _ => row_text(alloc, &schema, text),
    }
}
