//! A row in words.

ghost use Rattle.std.specs.Prelude.{◌≡◌, ◌++◌, IfOk, OnOk, Some, map, string_bytes};
ghost use Rattle.clr_phrases.specs.Places.{place_text};
ghost use Rattle.clr_phrases.specs.Rows.{between_text, byte_on_one_line, count_text, path_text, row_words, shape_text, value_text, values_text};

use crate::measures::At;
use clr_rows::{CellId, Place, Row, Schema, Shape, TableDef, Value};
use std::alloc::{AllocError, Global};

/// Adds a text on one line, with a space in place of each line end.
fn add_on_one_line(text: &mut String, words: &str) -> Result<(), AllocError>
    ensures { OnOk result (string_bytes text.new ≡ string_bytes text.old ++ map byte_on_one_line words.now) }
{
    let mut rest = words;
    while let Some((line, behind)) = rest.split_once('\n') {
        text.push_str(line)?;
        text.push(' ')?;
        rest = behind;
    }
    text.push_str(rest)?;
    Ok(())
}

/// Adds a value as it stands in a sentence: a number, or a text on one line in quotes.
pub(crate) fn add_value(text: &mut String, value: &Value) -> Result<(), AllocError>
    ensures { OnOk result (string_bytes text.new ≡ string_bytes text.old ++ value_text value.now) }
{
    match value {
        Value::Int(number) => write!(text, "{number}"),
        Value::Words(words) => {
            text.push_str("'")?;
            add_on_one_line(text, words.as_str())?;
            text.push_str("'")
        }
    }
}

/// Adds the values of a row, each behind the name of its column.
fn add_values(text: &mut String, table: &TableDef, row: &Row) -> Result<(), AllocError>
    ensures { OnOk result (string_bytes text.new ≡ string_bytes text.old ++ values_text (Some table.now) row.now) }
{
    for ((name, _), value) in table.columns.as_slice().iter().zip(row.values.as_slice()) {
        text.push_str(name.as_str())?;
        text.push_str(" ")?;
        add_value(text, value)?;
        text.push_str(", ")?;
    }
    Ok(())
}

/// Adds a place by its coordinates in metres.
fn add_place(text: &mut String, place: Place) -> Result<(), AllocError>
    ensures { OnOk result (string_bytes text.new ≡ string_bytes text.old ++ place_text place) }
{
    let place = At(place);
    write!(text, "{place}")
}

/// Adds how many vertices these are.
fn add_count(text: &mut String, count: usize) -> Result<(), AllocError>
    ensures { OnOk result (string_bytes text.new ≡ string_bytes text.old ++ count_text count) }
{
    let noun = if count == 1 { " vertex" } else { " vertices" };
    write!(text, "{count}")?;
    text.push_str(noun)
}

/// Adds how many vertices stand between the ends of a path, if some do.
fn add_between(text: &mut String, count: usize) -> Result<(), AllocError>
    ensures { OnOk result (string_bytes text.new ≡ string_bytes text.old ++ between_text count) }
{
    if count == 0 {
        return Ok(());
    }
    text.push_str(" by ")?;
    add_count(text, count)
}

/// Adds where a path goes: its first and its last vertex, and how many stand between, if some do.
fn add_path(text: &mut String, vertices: &[Place]) -> Result<(), AllocError>
    ensures { OnOk result (string_bytes text.new ≡ string_bytes text.old ++ path_text vertices.now) }
{
    match vertices {
        [first, between @ .., last] => {
            text.push_str("from ")?;
            add_place(text, *first)?;
            add_between(text, between.len())?;
            text.push_str(" to ")?;
            add_place(text, *last)
        }
        _ => text.push_str("no shape"),
    }
}

/// Adds where a shape is.
fn add_shape(text: &mut String, shape: &Shape) -> Result<(), AllocError>
    ensures { OnOk result (string_bytes text.new ≡ string_bytes text.old ++ shape_text shape.now) }
{
    match shape {
        Shape::Bare => text.push_str("no shape"),
        Shape::At(place) => {
            text.push_str("at ")?;
            add_place(text, *place)
        }
        Shape::Line(first, last) => {
            text.push_str("from ")?;
            add_place(text, *first)?;
            text.push_str(" to ")?;
            add_place(text, *last)
        }
        Shape::Chain(vertices) => add_path(text, vertices.as_slice()),
    }
}

/// Returns a row in words: its values, each behind the name of its column, and where it is, as
/// `code 'D', from (30.000, 0.000) to (30.000, 10.000)`. Of a table that the schema hasn't only the
/// shape is told.
pub fn row_words(
    alloc: Global,
    schema: &Schema,
    cell: CellId,
    row: &Row,
) -> Result<String, AllocError>
    ensures { IfOk result (λ text. string_bytes text ≡ row_words schema.now cell row.now) }
{
    let mut text = String::new(alloc);
    if let Some(table) = schema.def(cell.table) {
        add_values(&mut text, table, row)?;
    }
    add_shape(&mut text, &row.shape)?;
    Ok(text)
}
