//! The tables of an office in a database.

ghost use Rattle.std.specs.Prelude.{◌≡◌, ◌++◌, codes, OnOk};
ghost use Rattle.std.specs.List.{flat_map};
ghost use Rattle.clr_metres.specs.Metres.{metres_text};
ghost use Rattle.clr_sql.specs.Quoting.{quoted_name};
ghost use Rattle.clr_sql.specs.Relations.{
  column_name,
  column_title,
  flat_function,
  layer_query,
  shape_column,
  shape_title,
  titled_query,
  titles,
  wkt_column,
  wkt_function,
};

use crate::quoting::{add_name, add_text};
use crate::targets::{Dialect, Target};
use clr_metres::add_metres;
use clr_rows::{Form, Kind, Place, TableDef, Words};
use std::alloc::AllocError;

/// Returns the function that gives the WKT of a geometry with three decimals.
fn wkt_function(dialect: Dialect) -> &'static str
    ensures { result.now ≡ wkt_function dialect }
{
    match dialect {
        Dialect::PostGis => "ST_AsText",
        Dialect::SpatiaLite => "AsWKT",
    }
}

/// Returns the function that leaves the heights of a geometry out.
fn flat_function(dialect: Dialect) -> &'static str
    ensures { result.now ≡ flat_function dialect }
{
    match dialect {
        Dialect::PostGis => "ST_Force2D",
        Dialect::SpatiaLite => "CastToXY",
    }
}

/// Adds the names of columns in quotes, each behind a comma. If memory runs out, some of them may have been added.
pub fn add_columns(text: &mut Vec<u8>, columns: &[(Words, Kind)]) -> Result<(), AllocError>
    ensures { OnOk result (text.new.items ≡ text.old.items ++ flat_map column_name columns.now) }
{
    for column in columns {
        text.extend_from_slice(b", ")?;
        add_name(text, column.0.as_str())?;
    }
    Ok(())
}

/// Adds what stands before the origin in the WKT of a row's geometry.
fn add_flat_geometry(text: &mut Vec<u8>, dialect: Dialect) -> Result<(), AllocError>
    ensures { OnOk result (text.new.items ≡ text.old.items
        ++ codes ", " ++ wkt_function dialect ++ codes "(ST_Translate(" ++ flat_function dialect ++ codes "(\"WKT\"), -(") }
{
    text.extend_from_slice(b", ")?;
    text.extend_from_slice(wkt_function(dialect).as_bytes())?;
    text.extend_from_slice(b"(ST_Translate(")?;
    text.extend_from_slice(flat_function(dialect).as_bytes())?;
    text.extend_from_slice(b"(\"WKT\"), -(")
}

/// Adds the origin, from which the geometry is moved back, and what stands behind it.
fn add_moved_back(text: &mut Vec<u8>, origin: Place) -> Result<(), AllocError>
    ensures { OnOk result (text.new.items ≡ text.old.items
        ++ metres_text origin.x ++ codes "), -(" ++ metres_text origin.y ++ codes "), 0), 3) AS \"WKT\"") }
{
    add_metres(text, origin.x)?;
    text.extend_from_slice(b"), -(")?;
    add_metres(text, origin.y)?;
    text.extend_from_slice(b"), 0), 3) AS \"WKT\"")
}

/// Adds the WKT of a row's geometry without heights, moved back from the origin, behind other columns.
fn add_wkt_column(text: &mut Vec<u8>, target: &Target) -> Result<(), AllocError>
    ensures { OnOk result (text.new.items ≡ text.old.items ++ wkt_column target.now) }
{
    add_flat_geometry(text, target.dialect)?;
    add_moved_back(text, target.origin)
}

/// Adds the column of shapes, in a table whose rows have any.
fn add_shape_column(text: &mut Vec<u8>, target: &Target, form: Form) -> Result<(), AllocError>
    ensures { OnOk result (text.new.items ≡ text.old.items ++ shape_column target.now form) }
{
    match form {
        Form::Bare => Ok(()),
        _ => add_wkt_column(text, target),
    }
}

/// Adds where the rows of a table come from.
fn add_from(text: &mut Vec<u8>, name: &str) -> Result<(), AllocError>
    ensures { OnOk result (text.new.items ≡ text.old.items ++ codes " FROM " ++ quoted_name name.now) }
{
    text.extend_from_slice(b" FROM ")?;
    add_name(text, name)
}

/// Adds the query of the rows of a table as a layer has them, as
/// `SELECT "KEY", "code", ST_AsText(ST_Translate(ST_Force2D("WKT"), -(0.000), -(0.000), 0), 3) AS "WKT" FROM "main"`. If memory runs out, part of it
/// may have been added.
pub fn add_layer_query(
    text: &mut Vec<u8>,
    target: &Target,
    table: &TableDef,
) -> Result<(), AllocError>
    ensures { OnOk result (text.new.items ≡ text.old.items ++ layer_query target.now table.now) }
{
    text.extend_from_slice(b"SELECT \"KEY\"")?;
    add_columns(text, table.columns.as_slice())?;
    add_shape_column(text, target, table.shape)?;
    add_from(text, table.name.as_str())
}

/// Adds the names of columns as texts, each behind a comma.
fn add_column_titles(text: &mut Vec<u8>, columns: &[(Words, Kind)]) -> Result<(), AllocError>
    ensures { OnOk result (text.new.items ≡ text.old.items ++ flat_map column_title columns.now) }
{
    for column in columns {
        text.extend_from_slice(b", ")?;
        add_text(text, column.0.as_str().as_bytes())?;
    }
    Ok(())
}

/// Adds the name of the column of shapes as a text, in a table whose rows have any.
fn add_shape_title(text: &mut Vec<u8>, form: Form) -> Result<(), AllocError>
    ensures { OnOk result (text.new.items ≡ text.old.items ++ shape_title form) }
{
    match form {
        Form::Bare => Ok(()),
        _ => text.extend_from_slice(b", 'WKT'"),
    }
}

/// Adds a row with the names of a layer's columns.
fn add_titles(text: &mut Vec<u8>, table: &TableDef) -> Result<(), AllocError>
    ensures { OnOk result (text.new.items ≡ text.old.items ++ titles table.now) }
{
    text.extend_from_slice(b"SELECT 'KEY'")?;
    add_column_titles(text, table.columns.as_slice())?;
    add_shape_title(text, table.shape)
}

/// Adds the query of the rows of a table behind a row with the names of their columns, as
/// `SELECT 'KEY', 'code' UNION ALL SELECT "KEY", "code" FROM "pipe"`: sqlite3 prints no names of its own for a query without rows. If memory runs out, part of
/// it may have been added.
pub fn add_titled_query(
    text: &mut Vec<u8>,
    target: &Target,
    table: &TableDef,
) -> Result<(), AllocError>
    ensures { OnOk result (text.new.items ≡ text.old.items ++ titled_query target.now table.now) }
{
    add_titles(text, table)?;
    text.extend_from_slice(b" UNION ALL ")?;
    add_layer_query(text, target, table)
}
