//! The rows of a table in a content, and their layer.

ghost use Rattle.std.specs.Prelude.{◌≡◌, true, IfOk, None, Some, option_map, slice_get};
ghost use Rattle.clr_rows.specs.Schemas.{FitsSchema, schema_fault};
ghost use Rattle.clr_layer_text.specs.Layers.{can_be_layer, is_bare, is_called_shape};
ghost use Rattle.clr_layer_text.specs.TableRows.{IsLayerText, IsTableLayer, rows_of_table};
ghost use Rattle.std.specs.List.{list_any};

use crate::limits::SHAPE;
use crate::rows::LayerRow;
use crate::writing::write_layer;
use clr_rows::{Form, Kind, Schema, Sheet, TableDef, Words};
use std::alloc::{AllocError, Global};

/// Returns the rows of a table in a content, in the order of their keys.
pub fn rows_of_table(
    alloc: Global,
    content: &Sheet,
    table: u16,
) -> Result<Vec<LayerRow>, AllocError>
    ensures { IfOk result (λ rows. rows.items ≡ rows_of_table content.now table) }
{
    let mut rows = Vec::new(alloc);
    for (cell, row) in content.iter() {
        if cell.table == table {
            rows.push(LayerRow {
                key: Some(cell.key),
                row: row.copy()?,
            })?;
        }
    }
    Ok(rows)
}

/// Returns whether a column is called as the field of shapes.
fn has_shape_column(columns: &[(Words, Kind)]) -> bool
    ensures { result ≡ list_any is_called_shape columns.now }
{
    columns.iter().any(|column| column.0.as_str() == SHAPE)
}

/// Returns whether a table's rows have no shape.
fn is_bare(form: Form) -> bool
    ensures { result ≡ is_bare form }
{
    match form {
        Form::Bare => true,
        _ => false,
    }
}

/// Returns whether no column of a table is called `WKT`, where its rows have shapes.
pub(crate) fn can_be_layer(table: &TableDef) -> bool
    ensures { result ≡ can_be_layer table.now }
{
    is_bare(table.shape) || !has_shape_column(table.columns.as_slice())
}

/// Returns the text of the layer of the rows of this table in a content.
fn layer_of_rows(
    alloc: Global,
    schema: &Schema,
    table: u16,
    found: &TableDef,
    content: &Sheet,
) -> Result<Vec<u8>, AllocError>
    requires sound { schema_fault schema.now ≡ None }
    requires stands { slice_get schema.now table ≡ Some found.now }
    requires can { can_be_layer found.now ≡ true }
    requires fits { FitsSchema schema.now content.now }
    ensures { IfOk result (λ text. IsLayerText schema.now table found.now (rows_of_table content.now table) text.items) }
{
    let rows = rows_of_table(alloc, content, table)?;
    let text = write_layer(alloc, found, rows.as_slice())?;
    Ok(text)
}

/// Returns the text of the layer of a table's rows in a content, in the order of their keys, which is read
/// as the same rows; or none where there is no such table, and where a column is called `WKT` beside shapes.
pub fn table_layer(
    alloc: Global,
    schema: &Schema,
    table: u16,
    content: &Sheet,
) -> Result<Option<Vec<u8>>, AllocError>
    requires { FitsSchema schema.now content.now }
    ensures { IfOk result (λ layer. IsTableLayer schema.now table content.now (option_map (λ text. text.items) layer)) }
{
    let Some(found) = schema.def(table) else {
        return Ok(None);
    };
    if can_be_layer(found) {
        let text = layer_of_rows(alloc, schema, table, found, content)?;
        Ok(Some(text))
    } else {
        Ok(None)
    }
}
