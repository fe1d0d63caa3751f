//! Tables of a schema, written as JSON.

ghost use Rattle.std.specs.Prelude.{◌≡◌, ◌++◌, IfOk, OnOk};
ghost use Rattle.clr_office_writing.specs.TableData.{column_data, form_word, table_data};
ghost use Rattle.clr_office_writing.specs.Tokens.{tokens_of};
ghost use Rattle.clr_office_writing.specs.Values.{list_data};

use crate::json_texts::JsonText;
use crate::lists::write_each;
use clr_office_reading::tables::kind_word;
use clr_rows::{Form, Kind, Schema, TableDef, Words};
use std::alloc::AllocError;

fn form_text(form: Form) -> &'static str
    ensures { result.now ≡ form_word form }
{
    match form {
        Form::Bare => "NONE",
        Form::Point => "POINT",
        Form::Segment => "SEGMENT",
        Form::Path => "PATH",
    }
}

fn write_column(text: &mut JsonText, column: &(Words, Kind)) -> Result<(), AllocError>
    ensures { OnOk result (text.new ≡ text.old ++ tokens_of (column_data column.now)) }
{
    text.begin_array()?;
    text.string(column.0.as_str())?;
    text.string(kind_word(column.1))?;
    text.end_array()
}

fn write_columns(text: &mut JsonText, columns: &[(Words, Kind)]) -> Result<(), AllocError>
    ensures { OnOk result (text.new ≡ text.old ++ tokens_of (list_data column_data columns.now)) }
{
    write_each::<(Words, Kind), _, _>(text, columns, write_column)
}

fn write_table(text: &mut JsonText, table: &TableDef) -> Result<(), AllocError>
    ensures { OnOk result (text.new ≡ text.old ++ tokens_of (table_data table.now)) }
{
    text.begin_object()?;
    text.key("columns")?;
    write_columns(text, table.columns.as_slice())?;
    text.key("name")?;
    text.string(table.name.as_str())?;
    text.key("shape")?;
    text.string(form_text(table.shape))?;
    text.end_object()
}

fn write_tables(text: &mut JsonText, tables: &[TableDef]) -> Result<(), AllocError>
    ensures { OnOk result (text.new ≡ text.old ++ tokens_of (list_data table_data tables.now)) }
{
    write_each::<TableDef, _, _>(text, tables, write_table)
}

/// Returns a text with the tables of a schema written at its end, in their order. If memory runs
/// out, the text is dropped.
pub fn with_tables(mut text: JsonText, schema: &Schema) -> Result<JsonText, AllocError>
    ensures { IfOk result (λ longer. longer ≡ text ++ tokens_of (list_data table_data schema.now)) }
{
    write_tables(&mut text, schema.tables())?;
    Ok(text)
}
