//! Names of columns, as an office text has them.

ghost use Rattle.std.specs.Prelude.{◌≡◌, ◌++◌, OnOk};
ghost use Rattle.clr_office_writing.specs.RuleData.{name_of_column, name_of_number};
ghost use Rattle.clr_office_writing.specs.Tokens.{tokens_of};
ghost use Rattle.clr_office_writing.specs.Values.{value_data};

use crate::json_texts::JsonText;
use clr_rows::{KEY, Schema, Value};
use clr_rules::Col;
use std::alloc::AllocError;

/// Returns the name of a column by its number, or no bytes where there is no such column.
pub fn numbered_name(schema: &Schema, table: u16, number: u16) -> &str
    ensures { result.now ≡ name_of_number schema.now table number }
{
    match schema.def(table) {
        Some(table) => match table.columns.as_slice().get(number as usize) {
            Some(column) => column.0.as_str(),
            None => "",
        },
        None => "",
    }
}

/// Returns the name of a column of a rule: `KEY` for the primary key.
pub fn column_name(schema: &Schema, table: u16, column: Col) -> &str
    ensures { result.now ≡ name_of_column schema.now table column }
{
    match column {
        Col::Key => KEY,
        Col::At(number) => numbered_name(schema, table, number),
    }
}

/// Writes a value.
pub fn write_value(text: &mut JsonText, value: &Value) -> Result<(), AllocError>
    ensures { OnOk result (text.new ≡ text.old ++ tokens_of (value_data value.now)) }
{
    match value {
        Value::Int(number) => text.number(*number),
        Value::Words(words) => text.string(words.as_str()),
    }
}
