//! A row that is put where none stands.

ghost use Rattle.std.specs.Prelude.{◌≡◌, ◌++◌, codes, OnOk};
ghost use Rattle.std.specs.Fmt.{signed_decimal};
ghost use Rattle.std.specs.List.{flat_map};
ghost use Rattle.clr_guarded_edits.specs.SqlTexts.{given_shape, guard_text, insertion_text, named_shape, with_comma};

use clr_rows::{Row, Shape, TableDef, Value};
use clr_sql::{Target, add_columns, add_geometry, add_key_condition, add_name, add_value};
use itoa::Buffer;
use std::alloc::AllocError;

/// Adds values, each behind a comma. If memory runs out, some of them may have been added.
pub fn add_values(text: &mut Vec<u8>, values: &[Value]) -> Result<(), AllocError>
    ensures { OnOk result (text.new.items ≡ text.old.items ++ flat_map with_comma values.now) }
{
    for value in values {
        text.extend_from_slice(b", ")?;
        add_value(text, value)?;
    }
    Ok(())
}

/// Adds the name of the column of shapes, of a row that has one.
fn add_named_shape(text: &mut Vec<u8>, shape: &Shape) -> Result<(), AllocError>
    ensures { OnOk result (text.new.items ≡ text.old.items ++ named_shape shape.now) }
{
    match shape {
        Shape::Bare => Ok(()),
        _ => text.extend_from_slice(b", \"WKT\""),
    }
}

/// Adds the geometry of a row that has a shape, behind a comma, and nothing for a row without one. If memory runs out, part of it may have been added.
pub fn add_given_shape(text: &mut Vec<u8>, target: &Target, shape: &Shape) -> Result<(), AllocError>
    ensures { OnOk result (text.new.items ≡ text.old.items ++ given_shape target.now shape.now) }
{
    match shape {
        Shape::Bare => Ok(()),
        _ => {
            text.extend_from_slice(b", ")?;
            add_geometry(text, target, shape)
        }
    }
}

/// Adds the end of the names of columns, and a key as the first value.
fn add_select(text: &mut Vec<u8>, key: i64) -> Result<(), AllocError>
    ensures { OnOk result (text.new.items ≡ text.old.items ++ codes ") SELECT " ++ signed_decimal key) }
{
    text.extend_from_slice(b") SELECT ")?;
    text.extend_from_slice(Buffer::new().format(key).as_bytes())
}

/// Adds that no row of a table has a key, and the end of the statement.
fn add_guard(text: &mut Vec<u8>, table: &TableDef, key: i64) -> Result<(), AllocError>
    ensures { OnOk result (text.new.items ≡ text.old.items ++ guard_text table.now key) }
{
    text.extend_from_slice(b" WHERE NOT EXISTS (SELECT 1 FROM ")?;
    add_name(text, table.name.as_str())?;
    text.extend_from_slice(b" WHERE ")?;
    add_key_condition(text, key)?;
    text.extend_from_slice(b");\n")
}

/// Adds a statement that puts a row, unless one has its key.
pub(crate) fn add_insertion(
    text: &mut Vec<u8>,
    target: &Target,
    table: &TableDef,
    key: i64,
    row: &Row,
) -> Result<(), AllocError>
    ensures { OnOk result (text.new.items ≡ text.old.items ++ insertion_text target.now table.now key row.now) }
{
    text.extend_from_slice(b"INSERT INTO ")?;
    add_name(text, table.name.as_str())?;
    text.extend_from_slice(b" (\"KEY\"")?;
    add_columns(text, table.columns.as_slice())?;
    add_named_shape(text, &row.shape)?;
    add_select(text, key)?;
    add_values(text, row.values.as_slice())?;
    add_given_shape(text, target, &row.shape)?;
    add_guard(text, table, key)
}
