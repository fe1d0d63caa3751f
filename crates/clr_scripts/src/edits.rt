//! The edits that records are.

ghost use Rattle.std.specs.Prelude.{◌≡◌, ◌+◌, ◌-◌, ◌<◌, ◌^◌, drop, length, map};
ghost use Rattle.csv.specs.Records.{fields_of};
ghost use Rattle.clr_readings.specs.Readings.{Gives, GivesAt};
ghost use Rattle.clr_scripts.specs.Records.{record_lacks_memory};
ghost use Rattle.clr_scripts.specs.Edits.{can_have_coordinates as can_have_so_many, can_have_fields as can_have, edit_by_verb, edit_in};
ghost use Rattle.clr_scripts.specs.Edits.{edit_of, edits_from, edits_in_text, place_of, row_of, shape_of};
ghost use Rattle.clr_scripts.specs.Edits.{value_of, values_of, verb_of, vertices_of, whole_number};

use crate::faults::RecordFault;
use crate::records::{records_in_text, with_number};
use clr_change::{Edit, Edits};
use clr_records::{field, read_number, read_value};
use clr_rows::{
    CellId, Form, Kind, LEAST_VERTICES, MOST_VERTICES, Place, Row, Schema, Shape, TableDef, Value,
    Values, Vertices, Words,
};
use csv::StringRecord;
use std::alloc::Global;

/// What an edit does at its cell.
#[derive(Clone, Copy, Debug, PartialEq, Eq)]
enum Verb {
    Insert,
    Update,
    Delete,
}

/// Returns what the first word of an edit does.
fn verb_of_word(word: &str) -> Result<Verb, RecordFault>
    ensures { result ≡ verb_of word.now }
{
    match word {
        "insert" => Ok(Verb::Insert),
        "update" => Ok(Verb::Update),
        "delete" => Ok(Verb::Delete),
        _ => Err(RecordFault::BadWord),
    }
}

/// Returns the whole number that a field is.
pub(crate) fn number(text: &str) -> Result<i64, RecordFault>
    ensures { result ≡ whole_number text.now }
{
    read_number(text).ok_or(RecordFault::BadNumber)
}

/// Returns the value of a column that a field is.
fn value(alloc: Global, kind: Kind, text: &str) -> Result<Value, RecordFault>
    ensures { Gives record_lacks_memory (λ x. x) result (value_of kind text.now) }
{
    read_value(alloc, kind, text)?.ok_or(RecordFault::BadNumber)
}

/// Returns the values of a row, which are the fields from the fourth on.
fn values(
    alloc: Global,
    columns: &[(Words, Kind)],
    fields: &StringRecord,
) -> Result<Values, RecordFault>
    ensures { Gives record_lacks_memory (λ x. x) result (values_of columns.now (fields_of fields.now) 3) }
{
    let mut list = Vec::new(alloc);
    for (i, column) in columns.iter().enumerate() {
        list.push(value(alloc, column.1, field(fields, 3 + i))?)?;
    }
    Ok(Values::new(list))
}

/// Returns the place that the two fields from a position on are.
#[tactic(auto, unfolding(crate::specs::Edits::place_in))]
fn place(fields: &StringRecord, at: usize) -> Result<Place, RecordFault>
    requires { at + 1 < 2 ^ 64 }
    ensures { result ≡ place_of (fields_of fields.now) at }
{
    let x = number(field(fields, at))?;
    let y = number(field(fields, at + 1))?;
    Ok(Place { x, y })
}

/// Returns the vertices of a path, two fields each from a position on. Fails with `FieldCount`
/// where a field is left over.
fn vertices(alloc: Global, fields: &StringRecord, first: usize) -> Result<Vertices, RecordFault>
    requires { first < 2 ^ 64 - 8 }
    ensures { Gives record_lacks_memory (λ x. x) result (vertices_of (drop first (fields_of fields.now))) }
{
    let mut list = Vec::new(alloc);
    let mut at = first;
    while fields.len().saturating_sub(at) > 1 {
        list.push(place(fields, at)?)?;
        at += 2;
    }
    if at < fields.len() {
        return Err(RecordFault::FieldCount);
    }
    Ok(Vertices::new(list))
}

/// Returns the shape of a row, whose coordinates are the fields from a position on.
fn shape(alloc: Global, form: Form, fields: &StringRecord, at: usize) -> Result<Shape, RecordFault>
    requires { at < 2 ^ 64 - 8 }
    ensures { Gives record_lacks_memory (λ x. x) result (shape_of form (fields_of fields.now) at) }
{
    match form {
        Form::Bare => Ok(Shape::Bare),
        Form::Point => Ok(Shape::At(place(fields, at)?)),
        Form::Segment => {
            let first = place(fields, at)?;
            let second = place(fields, at + 2)?;
            Ok(Shape::Line(first, second))
        }
        Form::Path => Ok(Shape::Chain(vertices(alloc, fields, at)?)),
    }
}

/// Returns the row of an edit: its values, and then its coordinates.
#[tactic(auto, unfolding(crate::specs::Edits::row_of))]
fn row(alloc: Global, table: &TableDef, fields: &StringRecord) -> Result<Row, RecordFault>
    ensures { Gives record_lacks_memory (λ x. x) result (row_of table.now (fields_of fields.now)) }
{
    let columns = table.columns.as_slice();
    let values = values(alloc, columns, fields)?;
    let shape = shape(alloc, table.shape, fields, 3 + columns.len())?;
    Ok(Row { values, shape })
}

/// Returns whether a row of a form can have so many coordinates. A path has two for each vertex.
fn can_have_coordinates(form: Form, count: usize) -> bool
    ensures { result ≡ can_have_so_many form count }
{
    match form {
        Form::Bare => count == 0,
        Form::Point => count == 2,
        Form::Segment => count == 4,
        Form::Path => count % 2 == 0 && LEAST_VERTICES <= count / 2 && count / 2 <= MOST_VERTICES,
    }
}

/// Returns whether an edit can have so many fields, from its word on.
fn can_have_fields(verb: Verb, table: &TableDef, count: usize) -> bool
    ensures { result ≡ can_have verb table.now count }
{
    let plain = 3 + table.columns.as_slice().len();
    match verb {
        Verb::Insert | Verb::Update => {
            plain <= count && can_have_coordinates(table.shape, count - plain)
        }
        Verb::Delete => count == 3,
    }
}

/// Returns the edit at a cell of this table.
fn edit_at_cell(
    alloc: Global,
    verb: Verb,
    cell: CellId,
    table: &TableDef,
    fields: &StringRecord,
) -> Result<Edit, RecordFault>
    ensures { Gives record_lacks_memory (λ x. x) result (edit_by_verb verb cell table.now (fields_of fields.now)) }
{
    match verb {
        Verb::Insert => Ok(Edit::Insert(cell, row(alloc, table, fields)?)),
        Verb::Update => Ok(Edit::Update(cell, row(alloc, table, fields)?)),
        Verb::Delete => Ok(Edit::Delete(cell)),
    }
}

/// Returns the edit of a known table. The count of fields is tested first, and then the numbers
/// from left to right.
#[tactic(auto, unfolding(crate::specs::Edits::edit_in))]
fn edit_of_table(
    alloc: Global,
    verb: Verb,
    number_of_table: u16,
    table: &TableDef,
    fields: &StringRecord,
) -> Result<Edit, RecordFault>
    ensures { Gives record_lacks_memory (λ x. x) result (edit_in verb number_of_table table.now (fields_of fields.now)) }
{
    if !can_have_fields(verb, table, fields.len()) {
        return Err(RecordFault::FieldCount);
    }
    let cell = CellId {
        table: number_of_table,
        key: number(field(fields, 2))?,
    };
    edit_at_cell(alloc, verb, cell, table, fields)
}

/// Returns the edit that a record is.
#[tactic(auto, unfolding(crate::specs::Edits::edit_of))]
fn edit(alloc: Global, schema: &Schema, fields: &StringRecord) -> Result<Edit, RecordFault>
    ensures { Gives record_lacks_memory (λ x. x) result (edit_of schema.now (fields_of fields.now)) }
{
    let verb = verb_of_word(field(fields, 0))?;
    if fields.len() < 3 {
        return Err(RecordFault::FieldCount);
    }
    let Some(number_of_table) = schema.table(field(fields, 1)) else {
        return Err(RecordFault::NoTable);
    };
    let Some(table) = schema.def(number_of_table) else {
        return Err(RecordFault::NoTable);
    };
    edit_of_table(alloc, verb, number_of_table, table, fields)
}

/// Returns the edits of records that are numbered from `first`.
pub(crate) fn edits(
    alloc: Global,
    schema: &Schema,
    first: usize,
    records: &[StringRecord],
) -> Result<Edits, (usize, RecordFault)>
    requires { first + length records.now < 2 ^ 64 }
    ensures { GivesAt record_lacks_memory (λ e. e) result (edits_from schema.now first (map fields_of records.now)) }
{
    let mut list = Vec::new(alloc);
    for (i, fields) in records.iter().enumerate() {
        match edit(alloc, schema, fields) {
            Ok(edit) => {
                if list.push(edit).is_err() {
                    return Err(with_number(first, RecordFault::OutOfMemory));
                }
            }
            Err(fault) => return Err(with_number(first + i, fault)),
        }
    }
    Ok(Edits::new(list))
}

/// Reads a text of edits, a CSV record each: `insert,TABLE,KEY,values..,coordinates..`, `update`
/// alike, or `delete,TABLE,KEY`. The fault is that of the first record that has one, beside the
/// record's number, counted from 1. In each record the word is tested first, then that it has at
/// least three fields, then the table, then the exact count of fields, and then the numbers from
/// left to right.
///
/// For example, these are an insert of node 10 and an update of node 9, where nodes are points with one text:
///
/// ```text
/// insert,node,10,tee,7,7
/// update,node,9,tap,5,5
/// ```
///
/// With `+5` for the last number it fails with `BadNumber` at 2.
///
/// Fails with `NotCsv` at 1 where the bytes aren't UTF-8, with `BadWord` where the first field is
/// none of the three words, with `FieldCount` where there are fewer than three fields, or a count
/// that the table's columns and shape don't allow (a path has 4 to 64 coordinates, an even count),
/// with `NoTable` where the schema has no table of the name, and with `BadNumber` where a key, a
/// value of a column of numbers or a coordinate isn't decimal in its one form, or isn't within 64
/// bits. Fails with `OutOfMemory` at 0 if memory runs out, which may come in place of any other
/// answer.
pub fn read_edits(
    alloc: Global,
    schema: &Schema,
    bytes: &[u8],
) -> Result<Edits, (usize, RecordFault)>
    ensures { GivesAt record_lacks_memory (λ e. e) result (edits_in_text schema.now bytes.now) }
{
    let records = records_in_text(alloc, bytes)?;
    edits(alloc, schema, 1, records.as_slice())
}
