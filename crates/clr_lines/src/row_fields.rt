//! The fields of a row's record, added one behind another.

ghost use Rattle.std.specs.Prelude.{◌≡◌, ◌++◌, [], map, OnOk};
ghost use Rattle.std.specs.List.{All, flat_map};
ghost use Rattle.csv.specs.Records.{fields_of, partial_of};
ghost use Rattle.clr_rows.specs.Beginnings.{IsBegun};
ghost use Rattle.clr_records.specs.Values.{IsText, value_field};
ghost use Rattle.clr_lines.specs.Rows.{cell_fields, place_fields, shape_fields};

use clr_records::{add_field, add_number, add_values};
use clr_rows::{CellId, Place, Row, Schema, Shape};
use csv::ByteRecord;
use std::alloc::AllocError;

fn add_place(fields: &mut ByteRecord, place: Place) -> Result<(), AllocError>
    requires { partial_of fields.old ≡ [] }
    ensures added { OnOk result (fields_of fields.new ≡ fields_of fields.old ++ place_fields place) }
    ensures whole { OnOk result (partial_of fields.new ≡ []) }
    ensures begun { IsBegun (fields_of fields.old) (place_fields place) (fields_of fields.new) }
{
    add_number(fields, place.x)?;
    add_number(fields, place.y)
}

fn add_vertices(fields: &mut ByteRecord, vertices: &[Place]) -> Result<(), AllocError>
    requires { partial_of fields.old ≡ [] }
    ensures added { OnOk result (fields_of fields.new ≡ fields_of fields.old ++ flat_map place_fields vertices.now) }
    ensures whole { OnOk result (partial_of fields.new ≡ []) }
    ensures begun { IsBegun (fields_of fields.old) (flat_map place_fields vertices.now) (fields_of fields.new) }
{
    for vertex in vertices {
        add_place(fields, *vertex)?;
    }
    Ok(())
}

fn add_shape(fields: &mut ByteRecord, shape: &Shape) -> Result<(), AllocError>
    requires { partial_of fields.old ≡ [] }
    ensures added { OnOk result (fields_of fields.new ≡ fields_of fields.old ++ shape_fields shape.now) }
    ensures whole { OnOk result (partial_of fields.new ≡ []) }
    ensures begun { IsBegun (fields_of fields.old) (shape_fields shape.now) (fields_of fields.new) }
{
    match shape {
        Shape::Bare => Ok(()),
        Shape::At(place) => add_place(fields, *place),
        Shape::Line(first, second) => {
            add_place(fields, *first)?;
            add_place(fields, *second)
        }
        Shape::Chain(vertices) => add_vertices(fields, vertices.as_slice()),
    }
}

/// Adds what names a cell to a record that ends with a whole field: the name of its table, empty where the schema hasn't the table, and its
/// key. If memory runs out, the record has at most the first of the two beside its fields.
pub fn add_cell_fields(
    fields: &mut ByteRecord,
    schema: &Schema,
    cell: CellId,
) -> Result<(), AllocError>
    requires { partial_of fields.old ≡ [] }
    ensures added { OnOk result (fields_of fields.new ≡ fields_of fields.old ++ cell_fields schema.now cell) }
    ensures whole { OnOk result (partial_of fields.new ≡ []) }
    ensures begun { IsBegun (fields_of fields.old) (cell_fields schema.now cell) (fields_of fields.new) }
{
    add_field(fields, schema.name_of_table(cell.table).as_bytes())?;
    add_number(fields, cell.key)
}

/// Adds what stands in a row to a record that ends with a whole field: its values, whose texts are in UTF-8, and then its coordinates, in
/// millimetres. If memory runs out, the record has at most a beginning of these fields beside its own.
pub fn add_row_fields(fields: &mut ByteRecord, row: &Row) -> Result<(), AllocError>
    requires { partial_of fields.old ≡ [] }
    ensures texts { OnOk result (All IsText row.now.values) }
    ensures added { OnOk result (fields_of fields.new ≡ fields_of fields.old ++ map value_field row.now.values ++ shape_fields row.now.shape) }
    ensures whole { OnOk result (partial_of fields.new ≡ []) }
    ensures begun { IsBegun (fields_of fields.old) (map value_field row.now.values ++ shape_fields row.now.shape) (fields_of fields.new) }
{
    add_values(fields, row.values.as_slice())?;
    add_shape(fields, &row.shape)
}
