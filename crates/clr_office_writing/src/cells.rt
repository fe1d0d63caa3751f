//! Rows and cells, written as JSON.

ghost use Rattle.std.specs.Prelude.{◌≡◌, ◌++◌, IfOk, None, OnOk};
ghost use Rattle.clr_rows.specs.Schemas.{name_of_table};
ghost use Rattle.clr_office_writing.specs.CellData.{coordinates_of, live_data, named_cell, named_cell_data, row_data, shape_data};
ghost use Rattle.clr_office_writing.specs.Tokens.{tokens_of};
ghost use Rattle.clr_office_writing.specs.Values.{list_data, number_data, value_data};

use crate::json_texts::JsonText;
use crate::lists::write_each;
use crate::names::write_value;
use clr_rows::{CellId, Place, Row, Schema, Shape, Sheet, Value};
use std::alloc::AllocError;

fn write_values(text: &mut JsonText, values: &[Value]) -> Result<(), AllocError>
    ensures { OnOk result (text.new ≡ text.old ++ tokens_of (list_data value_data values.now)) }
{
    write_each::<Value, _, _>(text, values, write_value)
}

/// Writes the coordinates of places, two numbers for each.
fn write_coordinates(text: &mut JsonText, places: &[Place]) -> Result<(), AllocError>
    ensures { OnOk result (text.new ≡ text.old ++ tokens_of (list_data number_data (coordinates_of places.now))) }
{
    text.begin_array()?;
    for place in places {
        text.number(place.x)?;
        text.number(place.y)?;
    }
    text.end_array()
}

fn write_shape(text: &mut JsonText, shape: &Shape) -> Result<(), AllocError>
    ensures { OnOk result (text.new ≡ text.old ++ tokens_of (shape_data shape.now)) }
{
    match shape {
        Shape::Bare => write_coordinates(text, &[]),
        Shape::At(place) => write_coordinates(text, &[*place]),
        Shape::Line(first, second) => write_coordinates(text, &[*first, *second]),
        Shape::Chain(vertices) => write_coordinates(text, vertices.as_slice()),
    }
}

/// Writes a cell with its row.
pub fn write_row(
    text: &mut JsonText,
    schema: &Schema,
    cell: CellId,
    row: &Row,
) -> Result<(), AllocError>
    ensures { OnOk result (text.new ≡ text.old ++ tokens_of (row_data (name_of_table schema.now cell.table) cell.key row.now)) }
{
    text.begin_object()?;
    text.key("k")?;
    text.number(cell.key)?;
    text.key("s")?;
    write_shape(text, &row.shape)?;
    text.key("t")?;
    text.string(schema.name_of_table(cell.table))?;
    text.key("v")?;
    write_values(text, row.values.as_slice())?;
    text.end_object()
}

/// Writes a cell that is gone.
pub fn write_gone(text: &mut JsonText, schema: &Schema, cell: CellId) -> Result<(), AllocError>
    ensures { OnOk result (text.new ≡ text.old ++ tokens_of (named_cell_data (named_cell schema.now (cell, None)))) }
{
    text.begin_object()?;
    text.key("gone")?;
    text.boolean(true)?;
    text.key("k")?;
    text.number(cell.key)?;
    text.key("t")?;
    text.string(schema.name_of_table(cell.table))?;
    text.end_object()
}

fn write_live(text: &mut JsonText, schema: &Schema, live: &Sheet) -> Result<(), AllocError>
    ensures { OnOk result (text.new ≡ text.old ++ tokens_of (live_data schema.now live.now)) }
{
    text.begin_array()?;
    for (cell, row) in live.iter() {
        write_row(text, schema, *cell, row)?;
    }
    text.end_array()
}

/// Returns a text with the rows of LIVE written at its end, ascending by cell. If memory runs out,
/// the text is dropped.
pub fn with_live(mut text: JsonText, schema: &Schema, live: &Sheet) -> Result<JsonText, AllocError>
    ensures { IfOk result (λ longer. longer ≡ text ++ tokens_of (live_data schema.now live.now)) }
{
    write_live(&mut text, schema, live)?;
    Ok(text)
}
