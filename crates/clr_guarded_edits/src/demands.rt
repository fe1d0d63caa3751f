//! Demands that a row, or none, stands at a cell.

ghost use Rattle.std.specs.Prelude.{◌≡◌, ◌++◌, OnOk, Some, slice_get};
ghost use Rattle.std.specs.Option.{option_copied};
ghost use Rattle.clr_guarded_edits.specs.SqlTexts.{count_text, demand_of};

use clr_lines::add_cell;
use clr_rows::{CellId, Row, Schema, TableDef};
use clr_sql::{Target, add_key_condition, add_name, add_row_condition};
use std::alloc::{AllocError, Global};

/// Adds a statement that counts the rows of a cell's table which fulfil a condition.
fn add_count(
    text: &mut Vec<u8>,
    schema: &Schema,
    cell: CellId,
    count: &[u8],
    table: &TableDef,
    condition: &[u8],
) -> Result<(), AllocError>
    ensures { OnOk result (text.new.items ≡ text.old.items ++ count_text schema.now cell count.now table.now condition.now) }
{
    text.extend_from_slice(b"INSERT INTO clr_row_count SELECT '")?;
    add_cell(text, schema, cell)?;
    text.extend_from_slice(b"', ")?;
    text.extend_from_slice(count)?;
    text.extend_from_slice(b" FROM ")?;
    add_name(text, table.name.as_str())?;
    text.extend_from_slice(b" WHERE ")?;
    text.extend_from_slice(condition)?;
    text.extend_from_slice(b";\n")
}

/// Adds that just this row, or none, stands at a cell of a table.
fn add_demand_of(
    alloc: Global,
    text: &mut Vec<u8>,
    target: &Target,
    schema: &Schema,
    cell: CellId,
    table: &TableDef,
    wanted: Option<&Row>,
) -> Result<(), AllocError>
    ensures { OnOk result (text.new.items ≡ text.old.items ++ demand_of target.now schema.now cell (Some table.now) (option_copied wanted.entry)) }
{
    let mut condition = Vec::new(alloc);
    match wanted {
        None => {
            add_key_condition(&mut condition, cell.key)?;
            add_count(
                text,
                schema,
                cell,
                b"1 - count(*)",
                table,
                condition.as_slice(),
            )
        }
        Some(row) => {
            add_row_condition(alloc, &mut condition, target.origin, table, cell.key, row)?;
            add_count(text, schema, cell, b"count(*)", table, condition.as_slice())
        }
    }
}

/// Adds that just this row, or none, stands at a cell: a statement that fails where it doesn't.
pub(crate) fn add_demand(
    alloc: Global,
    text: &mut Vec<u8>,
    target: &Target,
    schema: &Schema,
    cell: CellId,
    wanted: Option<&Row>,
) -> Result<(), AllocError>
    ensures { OnOk result (text.new.items
        ≡ text.old.items ++ demand_of target.now schema.now cell (slice_get schema.now cell.table) (option_copied wanted.entry)) }
{
    match schema.def(cell.table) {
        Some(table) => add_demand_of(alloc, text, target, schema, cell, table, wanted),
        None => Ok(()),
    }
}
