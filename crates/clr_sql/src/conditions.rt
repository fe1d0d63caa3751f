//! What a row of a table has, as a condition.

ghost use Rattle.std.specs.Prelude.{◌≡◌, ◌++◌, OnOk};
ghost use Rattle.std.specs.List.{flat_map, zip};
ghost use Rattle.clr_sql.specs.Conditions.{column_condition, key_condition, row_condition, value_condition};

use crate::quoting::{add_name, add_text};
use crate::shape_conditions::add_shape_condition;
use clr_rows::{Place, Row, TableDef, Value};
use itoa::Buffer;
use std::alloc::{AllocError, Global};

/// Adds that a row has a key, as `"KEY" = 20`. If memory runs out, part of it may have been added.
pub fn add_key_condition(text: &mut Vec<u8>, key: i64) -> Result<(), AllocError>
    ensures { OnOk result (text.new.items ≡ text.old.items ++ key_condition key) }
{
    text.extend_from_slice(b"\"KEY\" = ")?;
    text.extend_from_slice(Buffer::new().format(key).as_bytes())
}

/// Adds that a row has a value in a column, as `"main" = 20`; and of a text that it has this text, or none where the text is empty, as
/// `COALESCE("code", '') = 'D'`. If memory runs out, part of it may have been added.
pub fn add_column_condition(
    text: &mut Vec<u8>,
    column: &str,
    value: &Value,
) -> Result<(), AllocError>
    ensures { OnOk result (text.new.items ≡ text.old.items ++ column_condition column.now value.now) }
{
    match value {
        Value::Int(number) => {
            add_name(text, column)?;
            text.extend_from_slice(b" = ")?;
            text.extend_from_slice(Buffer::new().format(*number).as_bytes())
        }
        Value::Words(words) => {
            text.extend_from_slice(b"COALESCE(")?;
            add_name(text, column)?;
            text.extend_from_slice(b", '') = ")?;
            add_text(text, words.as_str().as_bytes())
        }
    }
}

/// Adds that a row has these values in the columns of its table, behind other conditions.
fn add_value_conditions(text: &mut Vec<u8>, table: &TableDef, row: &Row) -> Result<(), AllocError>
    ensures { OnOk result (text.new.items ≡ text.old.items ++ flat_map value_condition (zip table.now.columns row.now.values)) }
{
    for ((name, _), value) in table.columns.as_slice().iter().zip(row.values.as_slice()) {
        text.extend_from_slice(b" AND ")?;
        add_column_condition(text, name.as_str(), value)?;
    }
    Ok(())
}

/// Adds that a row of a table has a key, these values and this shape. A coordinate is compared in whole millimetres from the origin. If memory runs out,
/// part of it may have been added.
pub fn add_row_condition(
    alloc: Global,
    text: &mut Vec<u8>,
    origin: Place,
    table: &TableDef,
    key: i64,
    row: &Row,
) -> Result<(), AllocError>
    ensures { OnOk result (text.new.items ≡ text.old.items ++ row_condition origin table.now key row.now) }
{
    add_key_condition(text, key)?;
    add_value_conditions(text, table, row)?;
    add_shape_condition(alloc, text, origin, &row.shape)
}
