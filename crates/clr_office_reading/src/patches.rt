//! Differences, made of cells that are put over a content.

ghost use Rattle.std.specs.Prelude.{◌≡◌, is_none, OnErr};
ghost use Rattle.std.specs.FinMap as finite;
ghost use Rattle.clr_readings.specs.Readings.{Gives};
ghost use Rattle.clr_rule_text.specs.Fields.{text_lacks_memory};
ghost use Rattle.clr_office_reading.specs.Patches.{differences_at, differences_of, put_fault, with_cell, with_named_cells};

use crate::live::cell;
use crate::named_cells::{NamedCell, NamedCells, named_cells};
use clr_deltas::Differences;
use clr_rows::{CellId, Row, Schema};
use clr_rule_text::TextFault;
use clr_rule_text::json_values::JsonValue;
use std::alloc::Global;

/// Returns whether a row can be put at a cell, or none.
fn can_put(schema: &Schema, cell: CellId, row: &Option<Row>) -> bool
    ensures { result ≡ is_none (put_fault schema.now cell row.now) }
{
    match row {
        Some(row) => schema.fits(cell, row).is_ok(),
        None => schema.names_cell(cell).is_ok(),
    }
}

/// Returns the cell that a name and a key are. Fails with `BadRow` where there is no such table, the
/// row doesn't fit it, or no row could stand there, and with `RepeatedCell` where the differences have
/// the cell.
#[tactic(auto, unfolding(crate::specs::Patches::with_cell))]
fn free_cell(
    schema: &Schema,
    differences: &Differences,
    named: &NamedCell,
) -> Result<CellId, TextFault>
    ensures { Gives text_lacks_memory (λ c. finite.insert differences.now c named.now.row) result (with_cell schema.now differences.now named.now) }
{
    let cell = cell(schema, &named.table, named.key)?;
    if !can_put(schema, cell, &named.row) {
        return Err(TextFault::BadRow);
    }
    if differences.get(cell).is_some() {
        return Err(TextFault::RepeatedCell);
    }
    Ok(cell)
}

/// Puts a cell whose table is named into the differences. Where it fails, the differences stay as
/// they are.
pub fn put_cell(
    schema: &Schema,
    differences: &mut Differences,
    named: NamedCell,
) -> Result<(), TextFault>
    ensures value { Gives text_lacks_memory (λ _. differences.new) result (with_cell schema.now differences.old named) }
    ensures err { OnErr result (differences.new ≡ differences.old) }
{
    let cell = free_cell(schema, differences, &named)?;
    differences.put(cell, named.row)?;
    Ok(())
}

/// Returns the differences that cells make. Fails, cell by cell, with `BadRow` where the table
/// isn't known, or the row doesn't fit it, or no row could stand where one is gone, and with
/// `RepeatedCell` where the cell stood earlier in the list.
#[tactic(auto, unfolding(crate::specs::Patches::with_named_cells))]
pub fn differences(
    alloc: Global,
    schema: &Schema,
    cells: NamedCells,
) -> Result<Differences, TextFault>
    ensures { Gives text_lacks_memory (λ d. d) result (differences_of schema.now cells) }
{
    let mut differences = Differences::new(alloc);
    for named in cells.into_vec() {
        put_cell(schema, &mut differences, named)?;
    }
    Ok(differences)
}

/// Returns the differences that the cells at a key make. A missing list makes none. Fails with
/// `BadField` where a key is missing in a cell, or a value is none of those that may stand there,
/// and then as `differences` does.
#[tactic(auto, unfolding(crate::specs::Patches::differences_at))]
pub fn differences_in<J: JsonValue>(
    alloc: Global,
    json: &J,
    key: &str,
    schema: &Schema,
) -> Result<Differences, TextFault>
    ensures { Gives text_lacks_memory (λ d. d) result (differences_at key.now schema.now (J.stands_for json.now)) }
{
    differences(alloc, schema, named_cells(alloc, json, key, schema)?)
}
