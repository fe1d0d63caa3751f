//! Why edits can't be said in SQL.

ghost use Rattle.std.specs.Prelude.{◌≡◌, ◌≤◌, length};
ghost use Rattle.std.specs.FinMap as finite;
ghost use Rattle.std.specs.List.{list_any};
ghost use Rattle.clr_rows.specs.declared.limits.TheConstants.{MOST_TABLES};
ghost use Rattle.clr_layer_text.specs.Layers.{can_be_layer, is_bare, is_called_shape};
ghost use Rattle.clr_guarded_edits.specs.Fits.{first_unsayable, first_wkt_column, why_unsayable};

use clr_layer_text::SHAPE;
use clr_rows::{CellId, Form, Kind, Schema, Sheet, TableDef, Words};
use clr_sql::is_sayable;

/// Why edits can't be said in SQL.
#[derive(Clone, Copy, Debug, PartialEq, Eq)]
pub enum Unsayable {
    /// A column of the table of this number is called as that of its shapes.
    WktColumn(u16),
    /// The row of this cell has a text with a byte 0 or a carriage return, which aren't handed on as they are.
    LostByte(CellId),
}

/// Returns whether a column is called as that of shapes.
fn has_shape_column(columns: &[(Words, Kind)]) -> bool
    ensures { result ≡ list_any is_called_shape columns.now }
{
    columns.iter().any(|column| column.0.as_str() == SHAPE)
}

/// Returns whether a table's rows have no shape.
fn is_bare(form: Form) -> bool
    ensures { result ≡ is_bare form }
{
    match form {
        Form::Bare => true,
        _ => false,
    }
}

/// Returns whether no column of a table is called as that of its shapes.
fn can_be_layer(table: &TableDef) -> bool
    ensures { result ≡ can_be_layer table.now }
{
    is_bare(table.shape) || !has_shape_column(table.columns.as_slice())
}

/// Returns the number of the first table with a column that is called as that of its shapes, or none.
fn first_wkt_column(tables: &[TableDef]) -> Option<u16>
    requires { length tables.now ≤ MOST_TABLES }
    ensures { result ≡ first_wkt_column 0 tables.now }
{
    for at in 0..tables.len() {
        if !can_be_layer(&tables[at]) {
            return Some(at as u16);
        }
    }
    None
}

/// Returns the cell of the first row with a text that isn't handed on as it is, or none.
fn first_unsayable(rows: &Sheet) -> Option<CellId>
    ensures { result ≡ first_unsayable (finite.entries rows.now) }
{
    for (cell, row) in rows.iter() {
        if !is_sayable(row) {
            return Some(*cell);
        }
    }
    None
}

/// Returns why edits between two contents can't be said in SQL, or none: the first table with a column that is called as that of its shapes, or the first row
/// of the old content, or else of the new one, with a text that isn't handed on as it is.
pub fn why_unsayable(schema: &Schema, old: &Sheet, new: &Sheet) -> Option<Unsayable>
    ensures { result ≡ why_unsayable schema.now old.now new.now }
{
    // (a schema has few tables)
    let _few = schema.def(0);
    if let Some(number) = first_wkt_column(schema.tables()) {
        return Some(Unsayable::WktColumn(number));
    }
    match first_unsayable(old) {
        Some(cell) => Some(Unsayable::LostByte(cell)),
        None => first_unsayable(new).map(Unsayable::LostByte),
    }
}
