//! A transaction in SQL.

ghost use Rattle.std.specs.Prelude.{◌≡◌, ◌++◌, OnOk, IfOk};
ghost use Rattle.std.specs.FinMap as finite;
ghost use Rattle.std.specs.List.{flat_map};
ghost use Rattle.std.specs.Option.{option_copied};
ghost use Rattle.clr_guarded_edits.specs.SqlTexts.{beginning, demand_of, lock_text, make_of, pass_text, sql_text, statement_text};
ghost use Rattle.clr_guarded_edits.specs.Statements.{
  free_cells_demanded,
  guarded_edits,
  if_free,
  rows_after_demanded,
  rows_demanded,
};

use crate::demands::add_demand;
use crate::edit_texts::add_guarded_edit;
use crate::passes::add_pass;
use clr_change::ChangeSet;
use clr_rows::{CellId, Row, Schema, Sheet, TableDef};
use clr_sql::{Dialect, Target, add_name};
use std::alloc::{AllocError, Global};

fn add_lock(text: &mut Vec<u8>, table: &TableDef) -> Result<(), AllocError>
    ensures { OnOk result (text.new.items ≡ text.old.items ++ lock_text table.now) }
{
    text.extend_from_slice(b"LOCK TABLE ")?;
    add_name(text, table.name.as_str())?;
    text.extend_from_slice(b" IN SHARE ROW EXCLUSIVE MODE;\n")
}

/// Adds a lock of each table, by which nobody else writes into it until the transaction is over.
fn add_locks(text: &mut Vec<u8>, tables: &[TableDef]) -> Result<(), AllocError>
    ensures { OnOk result (text.new.items ≡ text.old.items ++ flat_map lock_text tables.now) }
{
    for table in tables {
        add_lock(text, table)?;
    }
    Ok(())
}

/// Adds what stands before the statements.
fn add_beginning(
    text: &mut Vec<u8>,
    dialect: Dialect,
    tables: &[TableDef],
) -> Result<(), AllocError>
    ensures { OnOk result (text.new.items ≡ text.old.items ++ beginning dialect tables.now) }
{
    match dialect {
        Dialect::PostGis => {
            text.extend_from_slice(
                b"\\set ON_ERROR_STOP on\nBEGIN ISOLATION LEVEL REPEATABLE READ;\n\
                  SET LOCAL standard_conforming_strings = on;\nSET LOCAL client_encoding = 'UTF8';\n",
            )?;
            add_locks(text, tables)
        }
        Dialect::SpatiaLite => text.extend_from_slice(b".bail on\nBEGIN IMMEDIATE;\n"),
    }
}

/// Adds a pass over each table.
fn add_passes(text: &mut Vec<u8>, target: &Target, tables: &[TableDef]) -> Result<(), AllocError>
    ensures { OnOk result (text.new.items ≡ text.old.items ++ flat_map (pass_text target.now) tables.now) }
{
    for table in tables {
        add_pass(text, target, table)?;
    }
    Ok(())
}

/// Adds that each row of a content is there as it was.
fn add_rows_demanded(
    alloc: Global,
    text: &mut Vec<u8>,
    target: &Target,
    schema: &Schema,
    old: &Sheet,
) -> Result<(), AllocError>
    ensures { OnOk result (text.new.items ≡ text.old.items ++ flat_map (statement_text target.now schema.now) (rows_demanded old.now)) }
{
    for (cell, row) in old.iter() {
        add_demand(alloc, text, target, schema, *cell, Some(row))?;
    }
    Ok(())
}

/// Adds that no row stands at a cell, where none stood there before.
fn add_if_free(
    alloc: Global,
    text: &mut Vec<u8>,
    target: &Target,
    schema: &Schema,
    cell: CellId,
    before: Option<&Row>,
) -> Result<(), AllocError>
    ensures { OnOk result (text.new.items ≡ text.old.items ++ flat_map (statement_text target.now schema.now) (if_free cell (option_copied before.entry))) }
{
    match before {
        Some(_) => Ok(()),
        None => add_demand(alloc, text, target, schema, cell, None),
    }
}

/// Adds that no row stands at a cell where one is put.
fn add_free_cells_demanded(
    alloc: Global,
    text: &mut Vec<u8>,
    target: &Target,
    schema: &Schema,
    changes: &ChangeSet,
) -> Result<(), AllocError>
    ensures { OnOk result (text.new.items ≡ text.old.items ++ flat_map (statement_text target.now schema.now) (free_cells_demanded changes.now)) }
{
    for (cell, change) in changes.iter() {
        add_if_free(alloc, text, target, schema, *cell, change.before.as_ref())?;
    }
    Ok(())
}

/// Adds an edit for each changed cell, guarded by the row before.
fn add_guarded_edits(
    alloc: Global,
    text: &mut Vec<u8>,
    target: &Target,
    schema: &Schema,
    changes: &ChangeSet,
) -> Result<(), AllocError>
    ensures { OnOk result (text.new.items ≡ text.old.items ++ flat_map (statement_text target.now schema.now) (guarded_edits changes.now)) }
{
    for (cell, change) in changes.iter() {
        add_guarded_edit(alloc, text, target, schema, *cell, change)?;
    }
    Ok(())
}

/// Adds that at each changed cell stands the row after.
fn add_rows_after_demanded(
    alloc: Global,
    text: &mut Vec<u8>,
    target: &Target,
    schema: &Schema,
    changes: &ChangeSet,
) -> Result<(), AllocError>
    ensures { OnOk result (text.new.items ≡ text.old.items ++ flat_map (statement_text target.now schema.now) (rows_after_demanded changes.now)) }
{
    for (cell, change) in changes.iter() {
        add_demand(alloc, text, target, schema, *cell, change.after.as_ref())?;
    }
    Ok(())
}

/// Returns the text of a transaction that takes the tables of a database from one content to another. `psql` or `sqlite3` runs it, with the file of the office
/// text whose LIVE the old content is in the variable CUT of the environment, and the names of the designs that were merged in DESIGNS. Until it is over nobody
/// else writes into the tables. It leads each table through `clr_desk reach`, looks whether each row of the old content is there as it was, and no row where
/// one is put, makes the edits, each guarded by the row as it was, and looks whether they had their effect. Where one of these fails, nothing is written.
pub fn write_sql(
    alloc: Global,
    target: &Target,
    schema: &Schema,
    old: &Sheet,
    new: &Sheet,
) -> Result<Vec<u8>, AllocError>
    ensures text { IfOk result (λ text. text.items ≡ sql_text target.now schema.now old.now new.now) }
{
    let changes = ChangeSet::between(alloc, old, new)?;
    let mut text = Vec::new(alloc);
    let tables = schema.tables();
    add_beginning(&mut text, target.dialect, tables)?;
    text.extend_from_slice(
        b"CREATE TEMPORARY TABLE clr_row_count (cell TEXT, found INTEGER CONSTRAINT clr_stale CHECK (found = 1));\n",
    )?;
    add_passes(&mut text, target, tables)?;
    add_rows_demanded(alloc, &mut text, target, schema, old)?;
    add_free_cells_demanded(alloc, &mut text, target, schema, &changes)?;
    add_guarded_edits(alloc, &mut text, target, schema, &changes)?;
    add_rows_after_demanded(alloc, &mut text, target, schema, &changes)?;
    text.extend_from_slice(b"DROP TABLE clr_row_count;\nCOMMIT;\n")?;
    Ok(text)
}
