//! Edits of rows, each guarded by the row as it was.

ghost use Rattle.std.specs.Prelude.{◌≡◌, ◌++◌, OnOk, slice_get};
ghost use Rattle.clr_guarded_edits.specs.SqlTexts.{deletion_text, edit_text, make_of, update_text};

use crate::assignments::{add_listed, assignments};
use crate::insertions::add_insertion;
use clr_rows::{CellId, Change, Row, Schema, TableDef};
use clr_sql::{Target, add_name, add_row_condition};
use std::alloc::{AllocError, Global};

/// Adds a statement that takes a row away, if it is as it was.
fn add_deletion(
    alloc: Global,
    text: &mut Vec<u8>,
    target: &Target,
    table: &TableDef,
    key: i64,
    old: &Row,
) -> Result<(), AllocError>
    ensures { OnOk result (text.new.items ≡ text.old.items ++ deletion_text target.now table.now key old.now) }
{
    text.extend_from_slice(b"DELETE FROM ")?;
    add_name(text, table.name.as_str())?;
    text.extend_from_slice(b" WHERE ")?;
    add_row_condition(alloc, text, target.origin, table, key, old)?;
    text.extend_from_slice(b";\n")
}

/// Adds a statement that changes a row, if it is as it was. It says only what differs.
fn add_update(
    alloc: Global,
    text: &mut Vec<u8>,
    target: &Target,
    table: &TableDef,
    key: i64,
    old: &Row,
    new: &Row,
) -> Result<(), AllocError>
    ensures { OnOk result (text.new.items ≡ text.old.items ++ update_text target.now table.now key old.now new.now) }
{
    let pieces = assignments(alloc, target, table, old, new)?;
    text.extend_from_slice(b"UPDATE ")?;
    add_name(text, table.name.as_str())?;
    text.extend_from_slice(b" SET ")?;
    add_listed(text, pieces.as_slice())?;
    text.extend_from_slice(b" WHERE ")?;
    add_row_condition(alloc, text, target.origin, table, key, old)?;
    text.extend_from_slice(b";\n")
}

/// Adds the statement that makes a change in a table.
fn add_edit(
    alloc: Global,
    text: &mut Vec<u8>,
    target: &Target,
    table: &TableDef,
    key: i64,
    change: &Change,
) -> Result<(), AllocError>
    ensures { OnOk result (text.new.items ≡ text.old.items ++ edit_text target.now table.now key change.now.before change.now.after) }
{
    match (&change.before, &change.after) {
        (None, None) => Ok(()),
        (None, Some(row)) => add_insertion(text, target, table, key, row),
        (Some(old), None) => add_deletion(alloc, text, target, table, key, old),
        (Some(old), Some(new)) => add_update(alloc, text, target, table, key, old, new),
    }
}

/// Adds the statement that makes a change at a cell, if the row before it still stands there.
pub(crate) fn add_guarded_edit(
    alloc: Global,
    text: &mut Vec<u8>,
    target: &Target,
    schema: &Schema,
    cell: CellId,
    change: &Change,
) -> Result<(), AllocError>
    ensures { OnOk result (text.new.items ≡ text.old.items ++ make_of target.now cell (slice_get schema.now cell.table) change.now) }
{
    match schema.def(cell.table) {
        Some(table) => add_edit(alloc, text, target, table, cell.key, change),
        None => Ok(()),
    }
}
