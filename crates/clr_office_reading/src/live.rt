//! The content of LIVE in an office text.

ghost use Rattle.std.specs.Prelude.{◌≡◌, IfOk, OnErr, Some};
ghost use Rattle.clr_rows.specs.Contents.{no_rows};
ghost use Rattle.clr_rows.specs.Schemas.{FitsSchema};
ghost use Rattle.clr_readings.specs.Readings.{Gives};
ghost use Rattle.clr_rule_text.specs.Fields.{text_lacks_memory};
ghost use Rattle.clr_office_reading.specs.Cells.{cell_of, live_of, with_named_row, with_named_rows};

use crate::cells::{NamedRow, live_rows};
use clr_rows::{CellId, Schema, Sheet, Words};
use clr_rule_text::TextFault;
use clr_rule_text::json_values::JsonValue;
use std::alloc::Global;

/// Returns the cell of a key in the table of a name. Fails with `BadRow` where there is no such
/// table.
#[tactic(auto, unfolding(crate::specs::Cells::cell_of))]
pub fn cell(schema: &Schema, table: &Words, key: i64) -> Result<CellId, TextFault>
    ensures { Gives text_lacks_memory (λ c. c) result (cell_of schema.now table.now key) }
{
    match schema.table(table.as_str()) {
        Some(table) => Ok(CellId { table, key }),
        None => Err(TextFault::BadRow),
    }
}

/// Puts a row whose table is named into a sheet. Fails with `BadRow` where there is no such table or the row
/// doesn't fit it, and with `RepeatedCell` where the sheet has a row there. Where it fails, the sheet stays as it is.
#[tactic(auto, unfolding(crate::specs::Cells::with_named_row))]
pub fn put_row(schema: &Schema, sheet: &mut Sheet, named: NamedRow) -> Result<(), TextFault>
    ensures value { Gives text_lacks_memory (λ _. sheet.new) result (with_named_row schema.now sheet.old named) }
    ensures err { OnErr result (sheet.new ≡ sheet.old) }
{
    let cell = cell(schema, &named.table, named.key)?;
    if schema.fits(cell, &named.row).is_err() {
        return Err(TextFault::BadRow);
    }
    match sheet.put(cell, named.row)? {
        None => Ok(()),
        Some(before) => {
            sheet.put(cell, before)?;
            Err(TextFault::RepeatedCell)
        }
    }
}

#[tactic(auto, unfolding(crate::specs::Cells::with_named_rows))]
fn sheet(alloc: Global, schema: &Schema, rows: Vec<NamedRow>) -> Result<Sheet, TextFault>
    ensures value { Gives text_lacks_memory (λ s. s) result (with_named_rows schema.now no_rows rows.items) }
    ensures fits { IfOk result (λ s. FitsSchema schema.now s) }
{
    let mut sheet = Sheet::new(alloc);
    for named in rows {
        put_row(schema, &mut sheet, named)?;
    }
    Ok(sheet)
}

/// Returns the content of LIVE in an office text. Fails with `BadField` where a key is missing in
/// one of the cells, a value is none of those that may stand there, or a cell has no row, and then,
/// cell by cell, with `BadRow` where the table isn't known or the row doesn't fit it, and with
/// `RepeatedCell` where the cell stood earlier in the list.
#[tactic(auto, unfolding(crate::specs::Cells::live_of))]
pub fn live<J: JsonValue>(alloc: Global, json: &J, schema: &Schema) -> Result<Sheet, TextFault>
    ensures value { Gives text_lacks_memory (λ s. s) result (live_of schema.now (J.stands_for json.now)) }
    ensures fits { IfOk result (λ s. FitsSchema schema.now s) }
{
    sheet(alloc, schema, live_rows(alloc, json, schema)?)
}
