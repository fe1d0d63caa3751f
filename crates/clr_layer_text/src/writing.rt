//! Layers, written as CSV.

ghost use Rattle.std.specs.Prelude.{◌≡◌, ◌++◌, ◌∷◌, [], Ok, IfOk, OnOk, map};
ghost use Rattle.csv.specs.Records.{fields_of, partial_of};
ghost use Rattle.csv.specs.Writing.{default_writer, row_text};
ghost use Rattle.clr_rows.specs.Schemas.{names_of};
ghost use Rattle.clr_layer_text.specs.Layers.{header_line, header_of, key_text, layer_text, row_fields, row_line, shape_fields, shape_name};
ghost use Rattle.std.specs.List.{All};
ghost use Rattle.clr_layer_text.specs.ReadBack.{HasTexts};
ghost use Rattle.clr_records.specs.Writing.{IsBetween, records_text, written_by};

use crate::limits::SHAPE;
use crate::rows::LayerRow;
use crate::shape_writing::shape_in_text;
use clr_records::{add_field, add_number, add_values};
use clr_rows::{Form, KEY, Kind, Shape, TableDef, Words};
use csv::{ByteRecord, Writer, WriterBuilder};
use std::alloc::{AllocError, Global};

/// Adds the names of columns.
fn add_names(fields: &mut ByteRecord, columns: &[(Words, Kind)]) -> Result<(), AllocError>
    requires { partial_of fields.old ≡ [] }
    ensures added { OnOk result (fields_of fields.new ≡ fields_of fields.old ++ names_of columns.now) }
    ensures whole { OnOk result (partial_of fields.new ≡ []) }
{
    for column in columns {
        add_field(fields, column.0.as_str().as_bytes())?;
    }
    Ok(())
}

/// Adds the name of the field of shapes, in a table whose rows have any.
fn add_shape_name(fields: &mut ByteRecord, form: Form) -> Result<(), AllocError>
    requires { partial_of fields.old ≡ [] }
    ensures added { OnOk result (fields_of fields.new ≡ fields_of fields.old ++ shape_name form) }
{
    match form {
        Form::Bare => Ok(()),
        _ => add_field(fields, SHAPE.as_bytes()),
    }
}

/// Returns the header of a table's layers.
fn header(alloc: Global, table: &TableDef) -> Result<ByteRecord, AllocError>
    ensures { IfOk result (λ made. fields_of made ≡ header_of table.now) }
{
    let mut line = ByteRecord::new(alloc);
    add_field(&mut line, KEY.as_bytes())?;
    add_names(&mut line, table.columns.as_slice())?;
    add_shape_name(&mut line, table.shape)?;
    Ok(line)
}

fn add_key(fields: &mut ByteRecord, key: Option<i64>) -> Result<(), AllocError>
    requires { partial_of fields.old ≡ [] }
    ensures added { OnOk result (fields_of fields.new ≡ fields_of fields.old ++ key_text key ∷ []) }
    ensures whole { OnOk result (partial_of fields.new ≡ []) }
{
    match key {
        None => add_field(fields, b""),
        Some(key) => add_number(fields, key),
    }
}

fn add_shape(alloc: Global, fields: &mut ByteRecord, shape: &Shape) -> Result<(), AllocError>
    requires { partial_of fields.old ≡ [] }
    ensures added { OnOk result (fields_of fields.new ≡ fields_of fields.old ++ shape_fields shape.now) }
{
    match shape {
        Shape::Bare => Ok(()),
        _ => add_field(fields, shape_in_text(alloc, shape)?.as_slice()),
    }
}

/// Returns the record of a row.
fn record_of(alloc: Global, row: &LayerRow) -> Result<ByteRecord, AllocError>
    ensures fields { IfOk result (λ made. fields_of made ≡ row_fields row.now) }
    ensures texts { OnOk result (HasTexts row.now) }
{
    let mut line = ByteRecord::new(alloc);
    add_key(&mut line, row.key)?;
    add_values(&mut line, row.row.values.as_slice())?;
    add_shape(alloc, &mut line, &row.row.shape)?;
    Ok(line)
}

/// Writes a record by a writer that is between two records.
fn add_record(writer: &mut Writer<Vec<u8>>, line: &ByteRecord) -> Result<(), AllocError>
    requires { IsBetween writer.old }
    ensures between { OnOk result (IsBetween writer.new) }
    ensures written { OnOk result (written_by writer.new ≡ written_by writer.old ++ row_text default_writer (fields_of line.now)) }
{
    match writer.write_byte_record(line) {
        Ok(()) => Ok(()),
        Err(_) => Err(AllocError),
    }
}

fn add_rows(
    alloc: Global,
    writer: &mut Writer<Vec<u8>>,
    rows: &[LayerRow],
) -> Result<(), AllocError>
    requires { IsBetween writer.old }
    ensures between { OnOk result (IsBetween writer.new) }
    ensures written { OnOk result (written_by writer.new ≡ written_by writer.old ++ records_text (map row_fields rows.now)) }
    ensures texts { OnOk result (All HasTexts rows.now) }
{
    for row in rows {
        let line = record_of(alloc, row)?;
        add_record(writer, &line)?;
    }
    Ok(())
}

/// Returns the text of a table's layer with these rows in their order: CSV with a header, a row on each
/// line, ended by `\n`. The header is `KEY`, the columns in their order, and `WKT` where the table's rows have
/// shapes. Coordinates are metres with three decimals. Where each row fits the table and no column is called
/// `WKT` beside shapes, the text is read as the same rows.
pub fn write_layer(
    alloc: Global,
    table: &TableDef,
    rows: &[LayerRow],
) -> Result<Vec<u8>, AllocError>
    ensures written { IfOk result (λ text. text.items ≡ layer_text table.now rows.now) }
    ensures texts { OnOk result (All HasTexts rows.now) }
{
    let mut writer = WriterBuilder::new().from_writer(Vec::new(alloc));
    let names = header(alloc, table)?;
    add_record(&mut writer, &names)?;
    add_rows(alloc, &mut writer, rows)?;
    match writer.into_inner() {
        Ok(text) => Ok(text),
        Err(_) => Err(AllocError),
    }
}

/// Returns a record as a line.
fn line_of(alloc: Global, fields: &ByteRecord) -> Result<Vec<u8>, AllocError>
    ensures { IfOk result (λ line. line.items ≡ row_text default_writer (fields_of fields.now)) }
{
    let mut writer = WriterBuilder::new().from_writer(Vec::new(alloc));
    add_record(&mut writer, fields)?;
    match writer.into_inner() {
        Ok(line) => Ok(line),
        Err(_) => Err(AllocError),
    }
}

/// Returns the first line of a table's layers, as `write_layer` has it: the header, ended by `\n`.
pub fn header_line(alloc: Global, table: &TableDef) -> Result<Vec<u8>, AllocError>
    ensures { IfOk result (λ line. line.items ≡ header_line table.now) }
{
    let names = header(alloc, table)?;
    line_of(alloc, &names)
}

/// Returns the line of a row in a layer, as `write_layer` has it, ended by `\n`.
pub fn row_line(alloc: Global, row: &LayerRow) -> Result<Vec<u8>, AllocError>
    ensures written { IfOk result (λ line. line.items ≡ row_line row.now) }
    ensures texts { OnOk result (HasTexts row.now) }
{
    let fields = record_of(alloc, row)?;
    line_of(alloc, &fields)
}
