//! What the designs of an office text change, in SQL.

ghost use Rattle.std.specs.Prelude.{◌≡◌, ◌++◌, OnOk, Some, slice_get};
ghost use Rattle.std.specs.FinMap as finite;
ghost use Rattle.std.specs.List.{flat_map};
ghost use Rattle.std.specs.Option.{option_copied};
ghost use Rattle.clr_deltas.specs.NamedDeltas.{stored_delta};
ghost use Rattle.clr_cut_proposals.specs.Designs.{brought_text, cell_in, design_text, listed_text, new_row_in, new_row_text};

use crate::searches::{add_except_found, add_into_found, add_temporary};
use clr_deltas::{Differences, StoredPart};
use clr_guarded_edits::{add_given_shape, add_values};
use clr_rows::{CellId, Row, Schema, TableDef};
use clr_sql::{Target, add_key_condition, add_name};
use itoa::Buffer;
use std::alloc::{AllocError, Global};

/// Adds the statement that finds the row at a cell of a table.
fn add_cell_in(
    alloc: Global,
    text: &mut Vec<u8>,
    cell: CellId,
    table: &TableDef,
) -> Result<(), AllocError>
    ensures { OnOk result (text.new.items ≡ text.old.items ++ cell_in cell table.now) }
{
    let name = table.name.as_str();
    add_into_found(alloc, text, name)?;
    text.extend_from_slice(b"\"KEY\" FROM ")?;
    add_name(text, name)?;
    text.extend_from_slice(b" WHERE ")?;
    add_key_condition(text, cell.key)?;
    add_except_found(alloc, text, name)
}

/// Adds the statement that finds the row at a cell that a design lists.
fn add_listed(
    alloc: Global,
    text: &mut Vec<u8>,
    schema: &Schema,
    cell: CellId,
) -> Result<(), AllocError>
    ensures { OnOk result (text.new.items ≡ text.old.items ++ listed_text schema.now cell) }
{
    match schema.def(cell.table) {
        Some(table) => add_cell_in(alloc, text, cell, table),
        None => Ok(()),
    }
}

/// Adds a row that a design brings.
fn add_new_row(
    alloc: Global,
    text: &mut Vec<u8>,
    target: &Target,
    cell: CellId,
    table: &TableDef,
    row: &Row,
) -> Result<(), AllocError>
    ensures { OnOk result (text.new.items ≡ text.old.items ++ new_row_in target.now cell table.now row.now) }
{
    text.extend_from_slice(b"INSERT INTO ")?;
    add_temporary(alloc, text, "clr_new_", table.name.as_str())?;
    text.extend_from_slice(b" VALUES (")?;
    text.extend_from_slice(Buffer::new().format(cell.key).as_bytes())?;
    add_values(text, row.values.as_slice())?;
    add_given_shape(text, target, &row.shape)?;
    text.extend_from_slice(b");\n")
}

/// Adds a row that a design brings at a cell.
fn add_new_row_at(
    alloc: Global,
    text: &mut Vec<u8>,
    target: &Target,
    schema: &Schema,
    cell: CellId,
    row: &Row,
) -> Result<(), AllocError>
    ensures { OnOk result (text.new.items ≡ text.old.items ++ new_row_text target.now cell (Some row.now) (slice_get schema.now cell.table)) }
{
    match schema.def(cell.table) {
        Some(table) => add_new_row(alloc, text, target, cell, table, row),
        None => Ok(()),
    }
}

/// Adds the statement that finds the row at a cell, and the row that a design brings there.
fn add_brought(
    alloc: Global,
    text: &mut Vec<u8>,
    target: &Target,
    schema: &Schema,
    cell: CellId,
    row: Option<&Row>,
) -> Result<(), AllocError>
    ensures { OnOk result (text.new.items ≡ text.old.items ++ brought_text target.now schema.now (cell, option_copied row.entry)) }
{
    add_listed(alloc, text, schema, cell)?;
    match row {
        Some(row) => add_new_row_at(alloc, text, target, schema, cell, row),
        None => Ok(()),
    }
}

/// Adds the statements that find the rows at the cells of a base.
fn add_base(
    alloc: Global,
    text: &mut Vec<u8>,
    schema: &Schema,
    base: &Differences,
) -> Result<(), AllocError>
    ensures { OnOk result (text.new.items ≡ text.old.items ++ flat_map (λ e. listed_text schema.now e.0) (finite.entries base.now)) }
{
    for (cell, _) in base.iter() {
        add_listed(alloc, text, schema, *cell)?;
    }
    Ok(())
}

/// Adds the same of the rows of a design, with those that it brings.
fn add_rows(
    alloc: Global,
    text: &mut Vec<u8>,
    target: &Target,
    schema: &Schema,
    rows: &Differences,
) -> Result<(), AllocError>
    ensures { OnOk result (text.new.items ≡ text.old.items ++ flat_map (brought_text target.now schema.now) (finite.entries rows.now)) }
{
    for (cell, row) in rows.iter() {
        add_brought(alloc, text, target, schema, *cell, row.as_ref())?;
    }
    Ok(())
}

/// Adds what a design changes.
pub(crate) fn add_design(
    alloc: Global,
    text: &mut Vec<u8>,
    target: &Target,
    schema: &Schema,
    design: &StoredPart,
) -> Result<(), AllocError>
    ensures { OnOk result (text.new.items ≡ text.old.items ++ design_text target.now schema.now (stored_delta design.now)) }
{
    add_base(alloc, text, schema, &design.delta.base)?;
    add_rows(alloc, text, target, schema, &design.delta.current)
}
