//! Layers, read from CSV.

ghost use Rattle.std.specs.Prelude.{◌≡◌, ◌+◌, ◌<◌, ◌^◌, length, map, IfOk};
ghost use Rattle.csv.specs.Records.{fields_of};
ghost use Rattle.clr_records.specs.Decimals.{number_of};
ghost use Rattle.clr_readings.specs.Readings.{Gives, GivesAt, or_fault};
ghost use Rattle.clr_layer_text.specs.declared.faults.LayerFault.TheVariants.{BadNumber};
ghost use Rattle.clr_layer_text.specs.Faults.{layer_lacks_memory};
ghost use Rattle.clr_layer_text.specs.Headings.{seen_headings};
ghost use Rattle.clr_layer_text.specs.Layers.{IsFitting, fitting, key_in_field, layer_in_text, layer_rows_of, row_of, rows_from, shape_in, value_of, values_of};
ghost use Rattle.clr_layer_text.specs.Layers.{whole_row_of};

use crate::faults::{LayerFault, numbered_fault};
use crate::headings::{Heading, Headings, ShapeHeading, find_headings};
use crate::rows::LayerRow;
use crate::shape_reading::read_shape;
use clr_records::{field, read_number, read_value, records_of};
use clr_rows::{CellId, Kind, Row, Schema, Shape, Value, Values};
use csv::StringRecord;
use std::alloc::Global;

fn number(text: &str) -> Result<i64, LayerFault>
    ensures { result ≡ or_fault BadNumber (number_of text.now) }
{
    read_number(text).ok_or(LayerFault::BadNumber)
}

/// Returns the key of a row, or none where its field is empty.
fn key(text: &str) -> Result<Option<i64>, LayerFault>
    ensures { result ≡ key_in_field text.now }
{
    if text.is_empty() {
        return Ok(None);
    }
    Ok(Some(number(text)?))
}

fn value(alloc: Global, kind: Kind, text: &str) -> Result<Value, LayerFault>
    ensures { Gives layer_lacks_memory (λ x. x) result (value_of kind text.now) }
{
    read_value(alloc, kind, text)?.ok_or(LayerFault::BadNumber)
}

/// Returns the values of a row.
fn values(alloc: Global, columns: &[Heading], fields: &StringRecord) -> Result<Values, LayerFault>
    ensures { Gives layer_lacks_memory (λ x. x) result (values_of columns.now (fields_of fields.now)) }
{
    let mut list = Vec::new(alloc);
    for column in columns {
        list.push(value(alloc, column.kind, field(fields, column.at))?)?;
    }
    Ok(Values::new(list))
}

fn shape(
    alloc: Global,
    rounded: bool,
    heading: Option<ShapeHeading>,
    fields: &StringRecord,
) -> Result<Shape, LayerFault>
    ensures { Gives layer_lacks_memory (λ x. x) result (shape_in rounded heading (fields_of fields.now)) }
{
    match heading {
        None => Ok(Shape::Bare),
        Some(heading) => read_shape(alloc, rounded, heading.form, field(fields, heading.at)),
    }
}

/// Returns the row, if it fits its table. A row without a key fits where it fits at key 1.
fn fitting_row(schema: &Schema, table: u16, row: LayerRow) -> Result<LayerRow, LayerFault>
    ensures value { result ≡ fitting schema.now table row }
    ensures fits { IfOk result (IsFitting schema.now table) }
{
    let key = row.key.unwrap_or(1);
    match schema.fits(CellId { table, key }, &row.row) {
        Ok(()) => Ok(row),
        Err(why) => Err(LayerFault::Unfit(why)),
    }
}

/// Returns the row of a record with the right count of fields.
#[tactic(auto, unfolding(crate::specs::Layers::whole_row_of))]
fn whole_row(
    alloc: Global,
    schema: &Schema,
    table: u16,
    rounded: bool,
    headings: &Headings,
    fields: &StringRecord,
) -> Result<LayerRow, LayerFault>
    ensures value { Gives layer_lacks_memory (λ x. x) result (whole_row_of schema.now table rounded (seen_headings headings.now) (fields_of fields.now)) }
    ensures fits { IfOk result (IsFitting schema.now table) }
{
    let key = key(field(fields, headings.key))?;
    let values = values(alloc, headings.columns.as_slice(), fields)?;
    let shape = shape(alloc, rounded, headings.shape, fields)?;
    fitting_row(
        schema,
        table,
        LayerRow {
            key,
            row: Row { values, shape },
        },
    )
}

/// Returns the row of a record of a layer, by where the header says that its fields stand. It fails with
/// `FieldCount` where the record has another number of fields than the header, and else as `read_layer` does.
pub fn read_row(
    alloc: Global,
    schema: &Schema,
    table: u16,
    rounded: bool,
    headings: &Headings,
    fields: &StringRecord,
) -> Result<LayerRow, LayerFault>
    ensures value { Gives layer_lacks_memory (λ x. x) result (row_of schema.now table rounded (seen_headings headings.now) (fields_of fields.now)) }
    ensures fits { IfOk result (IsFitting schema.now table) }
{
    if fields.len() == headings.width {
        whole_row(alloc, schema, table, rounded, headings, fields)
    } else {
        Err(LayerFault::FieldCount)
    }
}

/// Returns the rows of records that are numbered from 2.
fn rows(
    alloc: Global,
    schema: &Schema,
    table: u16,
    rounded: bool,
    headings: &Headings,
    records: &[StringRecord],
) -> Result<Vec<LayerRow>, (usize, LayerFault)>
    requires { length records.now + 2 < 2 ^ 64 }
    ensures { GivesAt layer_lacks_memory (λ v. v.items) result (rows_from schema.now table rounded (seen_headings headings.now) 2 (map fields_of records.now)) }
{
    let mut list = Vec::new(alloc);
    for (i, fields) in records.iter().enumerate() {
        match read_row(alloc, schema, table, rounded, headings, fields) {
            Ok(row) => {
                if list.push(row).is_err() {
                    return Err((0, LayerFault::OutOfMemory));
                }
            }
            Err(fault) => return Err(numbered_fault(2 + i, fault)),
        }
    }
    Ok(list)
}

/// Returns the rows of all records, the first of which is the header.
fn layer(
    alloc: Global,
    schema: &Schema,
    table: u16,
    rounded: bool,
    records: &[StringRecord],
) -> Result<Vec<LayerRow>, (usize, LayerFault)>
    requires { length records.now + 2 < 2 ^ 64 }
    ensures { GivesAt layer_lacks_memory (λ v. v.items) result (layer_rows_of schema.now table rounded (map fields_of records.now)) }
{
    let [header, others @ ..] = records else {
        return Err((1, LayerFault::NoColumn));
    };
    match find_headings(alloc, header, schema.def(table)) {
        Ok(headings) => rows(alloc, schema, table, rounded, &headings, others),
        Err(fault) => Err(numbered_fault(1, fault)),
    }
}

/// Reads a layer: the rows of a table as CSV. The first record is the header. It names `KEY`, the columns,
/// and `WKT` where the table's rows have shapes, in any order; other fields are passed over. Below it stands
/// a row on each record: its key, or nothing where it has none yet, its values, and its shape as WKT in
/// metres. Coordinates are read by their digits. What is finer than a millimetre is refused, or rounded
/// where `rounded` says so, a half away from 0. The rows stand in the order of their records; it isn't
/// asked whether two have one key. The fault is that of the first record that has one, beside the record's
/// number, counted from 1. In each record the count of fields is tested first, then the key, the values from
/// left to right as the table has its columns, the shape, and then whether the row fits its table.
///
/// Fails with `NotCsv` at 1 where the bytes aren't UTF-8; with `NoTable` at 1 where the schema hasn't the
/// table; with `NoColumn` at 1 where the header lacks one of its names, or where there is none; with
/// `ColumnTwice` at 1 where it has one of them twice; with `FieldCount` where a record has another number of
/// fields than the header; with `BadNumber` where a key or a whole number isn't decimal in its one form; with
/// `NotWkt`, `NotFlat`, `Curve`, `SeveralParts`, `NotDecimal` or `Finer` for a shape; and with `Unfit` and the
/// first test that the row doesn't pass. A row without a key fits where it fits at key 1. Fails with
/// `OutOfMemory` at 0 if memory runs out, which may come in place of any other answer.
pub fn read_layer(
    alloc: Global,
    schema: &Schema,
    table: u16,
    rounded: bool,
    bytes: &[u8],
) -> Result<Vec<LayerRow>, (usize, LayerFault)>
    ensures { GivesAt layer_lacks_memory (λ v. v.items) result (layer_in_text schema.now table rounded bytes.now) }
{
    match records_of(alloc, bytes) {
        Ok(Some(records)) => layer(alloc, schema, table, rounded, records.as_slice()),
        Ok(None) => Err((1, LayerFault::NotCsv)),
        Err(_) => Err((0, LayerFault::OutOfMemory)),
    }
}
