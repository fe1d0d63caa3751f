//! The names of tables and columns of a schema.

ghost use Rattle.std.specs.Prelude.{◌≡◌, codes, map, IfOk, slice_get, string_bytes};
ghost use Rattle.std.specs.List.{join_by};
ghost use Rattle.std.specs.Option.{option_and_then, option_copied};
ghost use Rattle.clr_rows.specs.Schemas.{names_of, table_named};

use clr_rows::{Schema, TableDef};
use std::alloc::{AllocError, Global};

/// Returns the names of all tables.
pub fn table_names<'a>(alloc: Global, schema: &'a Schema) -> Result<Vec<&'a str>, AllocError>
    ensures { IfOk result (λ names. map (λ name. name.now) names.items ≡ map (λ table. table.name) schema.now) }
{
    let mut names = Vec::new(alloc);
    for table in schema.tables() {
        names.push(table.name.as_str())?;
    }
    Ok(names)
}

/// Returns the names of the columns of a table.
pub fn column_names<'a>(alloc: Global, table: &'a TableDef) -> Result<Vec<&'a str>, AllocError>
    ensures { IfOk result (λ names. map (λ name. name.now) names.items ≡ names_of table.now.columns) }
{
    let mut names = Vec::new(alloc);
    for column in table.columns.as_slice() {
        names.push(column.0.as_str())?;
    }
    Ok(names)
}

/// Returns names, with commas between them.
pub fn join_names(alloc: Global, names: &[&str]) -> Result<String, AllocError>
    ensures { IfOk result (λ text. string_bytes text ≡ join_by (λ name. name.now) (codes ", ") names.now) }
{
    names.join(alloc, ", ")
}

/// Returns the table of a name, or none where the schema has none of that name.
pub fn table_of<'a>(schema: &'a Schema, name: &str) -> Option<&'a TableDef>
    ensures { option_copied result ≡ option_and_then (slice_get schema.now) (table_named schema.now name.now) }
{
    schema.def(schema.table(name)?)
}
