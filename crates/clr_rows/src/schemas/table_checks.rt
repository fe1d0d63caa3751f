//! The tests that tables must pass to make a schema.

ghost use Rattle.std.specs.Prelude.{◌≡◌, ◌&&◌, length, map, nat_le};
ghost use Rattle.std.specs.List.{list_all, list_any};
ghost use Rattle.std.specs.Str.{bytes_eq};
ghost use Rattle.clr_rows.specs.Schemas.{Answers, schema_fault, names_of, are_distinct, has_room, is_column_name, has_good_names, has_distinct_columns};

use crate::faults::SchemaFault;
use crate::limits::{KEY, MOST_COLUMNS, MOST_TABLES};
use crate::names::good_name;
use crate::tables::{Kind, TableDef};
use crate::texts::Words;

/// Returns whether a table has at most 16 columns.
fn has_room(table: &TableDef) -> bool
    ensures { result ≡ has_room table.now }
{
    table.columns.as_slice().len() <= MOST_COLUMNS
}

/// Returns whether each table has at most 16 columns.
fn have_room(tables: &[TableDef]) -> bool
    ensures { result ≡ list_all has_room tables.now }
{
    tables.iter().all(has_room)
}

/// Returns whether there are at most 32 tables, each of at most 16 columns.
fn are_few(tables: &[TableDef]) -> bool
    ensures { result ≡ (nat_le (length tables.now) MOST_TABLES && list_all has_room tables.now) }
{
    tables.len() <= MOST_TABLES && have_room(tables)
}

fn is_column_name(name: &str) -> bool
    ensures { result ≡ is_column_name name.now }
{
    good_name(name) && name != KEY
}

fn have_good_names(columns: &[(Words, Kind)]) -> bool
    ensures { result ≡ list_all (λ c. is_column_name c.0) columns.now }
{
    columns
        .iter()
        .all(|column| is_column_name(column.0.as_str()))
}

/// Returns whether the names of a table and of its columns are good.
fn has_good_names(table: &TableDef) -> bool
    ensures { result ≡ has_good_names table.now }
{
    good_name(table.name.as_str()) && have_good_names(table.columns.as_slice())
}

/// Returns whether all names of tables and columns are good.
fn are_well_named(tables: &[TableDef]) -> bool
    ensures { result ≡ list_all has_good_names tables.now }
{
    tables.iter().all(has_good_names)
}

fn has_column(columns: &[(Words, Kind)], name: &str) -> bool
    ensures { result ≡ list_any (λ c. bytes_eq name.now c.0) columns.now }
{
    columns.iter().any(|column| name == column.0.as_str())
}

fn has_distinct_columns(table: &TableDef) -> bool
    ensures { result ≡ has_distinct_columns table.now }
{
    let columns = table.columns.as_slice();
    for i in 0..columns.len() {
        if has_column(&columns[i + 1..], columns[i].0.as_str()) {
            return false;
        }
    }
    true
}

fn has_table(tables: &[TableDef], name: &str) -> bool
    ensures { result ≡ list_any (λ t. bytes_eq name.now t.name) tables.now }
{
    tables.iter().any(|table| name == table.name.as_str())
}

fn have_distinct_names(tables: &[TableDef]) -> bool
    ensures { result ≡ are_distinct (map (λ t. t.name) tables.now) }
{
    for i in 0..tables.len() {
        if has_table(&tables[i + 1..], tables[i].name.as_str()) {
            return false;
        }
    }
    true
}

fn have_distinct_columns(tables: &[TableDef]) -> bool
    ensures { result ≡ list_all has_distinct_columns tables.now }
{
    tables.iter().all(has_distinct_columns)
}

/// Returns whether no table's name stands twice, nor a column's in one table.
fn are_distinctly_named(tables: &[TableDef]) -> bool
    ensures { result ≡ (are_distinct (map (λ t. t.name) tables.now) && list_all has_distinct_columns tables.now) }
{
    have_distinct_names(tables) && have_distinct_columns(tables)
}

/// Tests whether these tables make a schema. Each test is made over all tables before the next.
/// Fails with the fault of the first test that they don't pass.
#[tactic(auto, unfolding(crate::specs::Schemas::schema_fault))]
pub(super) fn check_tables(tables: &[TableDef]) -> Result<(), SchemaFault>
    ensures { Answers result (schema_fault tables.now) }
{
    if !are_few(tables) {
        Err(SchemaFault::TooMany)
    } else if !are_well_named(tables) {
        Err(SchemaFault::BadName)
    } else if !are_distinctly_named(tables) {
        Err(SchemaFault::NameTaken)
    } else {
        Ok(())
    }
}
