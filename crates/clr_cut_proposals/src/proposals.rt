//! SQL that proposes a cut.

ghost use Rattle.std.specs.Prelude.{◌≡◌, ◌++◌, ℕ, List, IfOk, OnOk, map};
ghost use Rattle.std.specs.List.{flat_map};
ghost use Rattle.clr_deltas.specs.NamedDeltas.{stored_delta};
ghost use Rattle.clr_cut_proposals.specs.Designs.{design_text};
ghost use Rattle.clr_cut_proposals.specs.Proposals.{beginning, file_text, found_layer, found_rows_text, if_found, made_table, proposal_text, psql_file};
ghost use Rattle.clr_cut_proposals.specs.Proposals.{rows_text, shape_name, sqlite_file, tables_text, titled_layer};
ghost use Rattle.clr_cut_proposals.specs.Searches.{kept_table, old_table, served_text, touched_text};

use crate::designs::add_design;
use crate::searches::{add_served, add_temporary, add_touched};
use clr_deltas::StoredPart;
use clr_rows::{Form, Schema, TableDef};
use clr_rules::Rule;
use clr_sql::{Dialect, Target, add_columns, add_layer_query, add_name, add_titled_query};
use std::alloc::{AllocError, Global};

/// Adds what stands before the statements.
fn add_beginning(text: &mut Vec<u8>, dialect: Dialect) -> Result<(), AllocError>
    ensures { OnOk result (text.new.items ≡ text.old.items ++ beginning dialect) }
{
    match dialect {
        Dialect::PostGis => text.extend_from_slice(
            b"\\set ON_ERROR_STOP on\nBEGIN ISOLATION LEVEL REPEATABLE READ;\n\
              SET LOCAL standard_conforming_strings = on;\nSET LOCAL client_encoding = 'UTF8';\n",
        ),
        Dialect::SpatiaLite => text.extend_from_slice(b".bail on\nBEGIN;\n"),
    }
}

/// Adds the name of the column of shapes, in a table whose rows have any.
fn add_shape_name(text: &mut Vec<u8>, form: Form) -> Result<(), AllocError>
    ensures { OnOk result (text.new.items ≡ text.old.items ++ shape_name form) }
{
    match form {
        Form::Bare => Ok(()),
        _ => text.extend_from_slice(b", \"WKT\""),
    }
}

/// Adds the query of the rows of a table, with their geometries as they are.
fn add_rows(text: &mut Vec<u8>, table: &TableDef) -> Result<(), AllocError>
    ensures { OnOk result (text.new.items ≡ text.old.items ++ rows_text table.now) }
{
    text.extend_from_slice(b"SELECT \"KEY\"")?;
    add_columns(text, table.columns.as_slice())?;
    add_shape_name(text, table.shape)?;
    text.extend_from_slice(b" FROM ")?;
    add_name(text, table.name.as_str())
}

/// Adds that a temporary table is made of what stands behind.
fn add_made_table(
    alloc: Global,
    text: &mut Vec<u8>,
    prefix: &str,
    name: &str,
) -> Result<(), AllocError>
    ensures { OnOk result (text.new.items ≡ text.old.items ++ made_table (prefix.now ++ name.now)) }
{
    text.extend_from_slice(b"CREATE TEMPORARY TABLE ")?;
    add_temporary(alloc, text, prefix, name)?;
    text.extend_from_slice(b" AS ")
}

/// Adds the temporary tables of a table.
fn add_tables_of(alloc: Global, text: &mut Vec<u8>, table: &TableDef) -> Result<(), AllocError>
    ensures { OnOk result (text.new.items ≡ text.old.items ++ tables_text table.now) }
{
    let name = table.name.as_str();
    add_made_table(alloc, text, "clr_cut_", name)?;
    text.extend_from_slice(b"SELECT \"KEY\" FROM ")?;
    add_name(text, name)?;
    text.extend_from_slice(b" LIMIT 0;\n")?;
    add_made_table(alloc, text, "clr_new_", name)?;
    add_rows(text, table)?;
    text.extend_from_slice(b" LIMIT 0;\n")
}

fn add_tables(alloc: Global, text: &mut Vec<u8>, tables: &[TableDef]) -> Result<(), AllocError>
    ensures { OnOk result (text.new.items ≡ text.old.items ++ flat_map tables_text tables.now) }
{
    for table in tables {
        add_tables_of(alloc, text, table)?;
    }
    Ok(())
}

/// Adds that only rows that are found are meant.
fn add_if_found(alloc: Global, text: &mut Vec<u8>, table: &str) -> Result<(), AllocError>
    ensures { OnOk result (text.new.items ≡ text.old.items ++ if_found table.now) }
{
    text.extend_from_slice(b" WHERE \"KEY\" IN (SELECT \"KEY\" FROM ")?;
    add_temporary(alloc, text, "clr_cut_", table)?;
    text.extend_from_slice(b")")
}

/// Adds the statement that puts the rows that are found so far into a table of their own.
fn add_found_rows_of(
    alloc: Global,
    text: &mut Vec<u8>,
    prefix: &str,
    table: &TableDef,
) -> Result<(), AllocError>
    ensures { OnOk result (text.new.items ≡ text.old.items ++ found_rows_text (λ (name : List ℕ). prefix.now ++ name) table.now) }
{
    let name = table.name.as_str();
    add_made_table(alloc, text, prefix, name)?;
    add_rows(text, table)?;
    add_if_found(alloc, text, name)?;
    text.extend_from_slice(b";\n")
}

fn add_found_rows(
    alloc: Global,
    text: &mut Vec<u8>,
    prefix: &str,
    tables: &[TableDef],
) -> Result<(), AllocError>
    ensures { OnOk result (text.new.items ≡ text.old.items ++ flat_map (found_rows_text (λ (name : List ℕ). prefix.now ++ name)) tables.now) }
{
    for table in tables {
        add_found_rows_of(alloc, text, prefix, table)?;
    }
    Ok(())
}

/// Adds the query of the rows of a table that are found, as a layer.
fn add_found_layer(
    alloc: Global,
    text: &mut Vec<u8>,
    target: &Target,
    table: &TableDef,
) -> Result<(), AllocError>
    ensures { OnOk result (text.new.items ≡ text.old.items ++ found_layer target.now table.now) }
{
    add_layer_query(text, target, table)?;
    add_if_found(alloc, text, table.name.as_str())
}

/// Adds what puts the rows of a table that are found into a file by psql.
fn add_psql_file(
    alloc: Global,
    text: &mut Vec<u8>,
    target: &Target,
    table: &TableDef,
) -> Result<(), AllocError>
    ensures { OnOk result (text.new.items ≡ text.old.items ++ psql_file target.now table.now) }
{
    text.extend_from_slice(b"\\copy (")?;
    add_found_layer(alloc, text, target, table)?;
    text.extend_from_slice(b") TO '")?;
    text.extend_from_slice(table.name.as_str().as_bytes())?;
    text.extend_from_slice(b".csv' CSV HEADER\n")
}

/// Adds the query of the rows of a table that are found, behind the names of their columns.
fn add_titled_layer(
    alloc: Global,
    text: &mut Vec<u8>,
    target: &Target,
    table: &TableDef,
) -> Result<(), AllocError>
    ensures { OnOk result (text.new.items ≡ text.old.items ++ titled_layer target.now table.now) }
{
    add_titled_query(text, target, table)?;
    add_if_found(alloc, text, table.name.as_str())
}

/// Adds what puts the rows of a table that are found into a file by sqlite3.
fn add_sqlite_file(
    alloc: Global,
    text: &mut Vec<u8>,
    target: &Target,
    table: &TableDef,
) -> Result<(), AllocError>
    ensures { OnOk result (text.new.items ≡ text.old.items ++ sqlite_file target.now table.now) }
{
    text.extend_from_slice(b".headers off\n.mode csv\n.once ")?;
    text.extend_from_slice(table.name.as_str().as_bytes())?;
    text.extend_from_slice(b".csv\n")?;
    add_titled_layer(alloc, text, target, table)?;
    text.extend_from_slice(b";\n")
}

/// Adds what puts the rows of a table that are found into a file.
fn add_file(
    alloc: Global,
    text: &mut Vec<u8>,
    target: &Target,
    table: &TableDef,
) -> Result<(), AllocError>
    ensures { OnOk result (text.new.items ≡ text.old.items ++ file_text target.now table.now) }
{
    match target.dialect {
        Dialect::PostGis => add_psql_file(alloc, text, target, table),
        Dialect::SpatiaLite => add_sqlite_file(alloc, text, target, table),
    }
}

fn add_files(
    alloc: Global,
    text: &mut Vec<u8>,
    target: &Target,
    tables: &[TableDef],
) -> Result<(), AllocError>
    ensures { OnOk result (text.new.items ≡ text.old.items ++ flat_map (file_text target.now) tables.now) }
{
    for table in tables {
        add_file(alloc, text, target, table)?;
    }
    Ok(())
}

fn add_designs(
    alloc: Global,
    text: &mut Vec<u8>,
    target: &Target,
    schema: &Schema,
    designs: &[StoredPart],
) -> Result<(), AllocError>
    ensures { OnOk result (text.new.items ≡ text.old.items ++ flat_map (design_text target.now schema.now) (map stored_delta designs.now)) }
{
    for design in designs {
        add_design(alloc, text, target, schema, design)?;
    }
    Ok(())
}

fn add_all_touched(
    alloc: Global,
    text: &mut Vec<u8>,
    target: &Target,
    schema: &Schema,
    rules: &[Rule],
) -> Result<(), AllocError>
    ensures { OnOk result (text.new.items ≡ text.old.items ++ flat_map (touched_text target.now schema.now) rules.now) }
{
    for rule in rules {
        add_touched(alloc, text, target, schema, rule)?;
    }
    Ok(())
}

fn add_all_served(
    alloc: Global,
    text: &mut Vec<u8>,
    target: &Target,
    schema: &Schema,
    rules: &[Rule],
) -> Result<(), AllocError>
    ensures { OnOk result (text.new.items ≡ text.old.items ++ flat_map (served_text target.now schema.now) rules.now) }
{
    for rule in rules {
        add_served(alloc, text, target, schema, rule)?;
    }
    Ok(())
}

/// Returns SQL that proposes a cut around designs, for `psql` or `sqlite3`. It finds the rows at each cell that a design lists, then, rule by rule, the rows
/// that may share a spot with a row that a design brings and that may stand beside another, or with one that a design changes and that serves, and rows that
/// may be wide, and then the rows that serve near a new row or near one that was found. The rows of each table go into a file of its name, as a layer. A row of
/// the designs that is wide itself shares with every row, and for it the proposal isn't enough.
#[tactic(auto, unfolding(crate::specs::Proposals::proposal_text))]
pub fn write_proposal(
    alloc: Global,
    target: &Target,
    schema: &Schema,
    rules: &[Rule],
    designs: &[StoredPart],
) -> Result<Vec<u8>, AllocError>
    ensures text { IfOk result (λ text. text.items ≡ proposal_text target.now schema.now rules.now (map stored_delta designs.now)) }
{
    let mut text = Vec::new(alloc);
    let tables = schema.tables();
    add_beginning(&mut text, target.dialect)?;
    add_tables(alloc, &mut text, tables)?;
    add_designs(alloc, &mut text, target, schema, designs)?;
    add_found_rows(alloc, &mut text, "clr_old_", tables)?;
    add_all_touched(alloc, &mut text, target, schema, rules)?;
    add_found_rows(alloc, &mut text, "clr_kept_", tables)?;
    add_all_served(alloc, &mut text, target, schema, rules)?;
    add_files(alloc, &mut text, target, tables)?;
    text.extend_from_slice(b"ROLLBACK;\n")?;
    Ok(text)
}
