//! The header of a layer: where the fields of a row stand.

ghost use Rattle.std.specs.Prelude.{◌≡◌, ◌+◌, ◌<◌, IfOk, IfSome, drop, length, position};
ghost use Rattle.std.specs.List.{list_any};
ghost use Rattle.std.specs.Option.{option_copied};
ghost use Rattle.std.specs.Str.{bytes_eq};
ghost use Rattle.csv.specs.Records.{fields_of};
ghost use Rattle.clr_records.specs.Records.{field_of};
ghost use Rattle.clr_readings.specs.Readings.{Gives};
ghost use Rattle.clr_layer_text.specs.Faults.{layer_lacks_memory};
ghost use Rattle.clr_layer_text.specs.Headings.{seen_headings};
ghost use Rattle.clr_layer_text.specs.Layers.{column_of, columns_of, fields_in, fields_of_table, heading_of, shape_heading_of};

use crate::faults::LayerFault;
use crate::limits::SHAPE;
use crate::table_rows::can_be_layer;
use clr_records::field;
use clr_rows::{Form, KEY, Kind, RowFault, TableDef, Words};
use csv::StringRecord;
use std::alloc::{AllocError, Global};

/// Where the values of a column stand, and of which kind they are.
#[derive(Clone, Copy, Debug)]
pub struct Heading {
    pub(crate) kind: Kind,
    pub(crate) at: usize,
}

/// Where the shapes stand, and of which form they are.
#[derive(Clone, Copy, Debug)]
pub struct ShapeHeading {
    pub(crate) form: Form,
    pub(crate) at: usize,
}

/// Where the fields of a row stand in records of so many fields.
#[derive(Drop)]
pub struct Headings {
    pub(crate) width: usize,
    pub(crate) key: usize,
    pub(crate) columns: Vec<Heading>,
    pub(crate) shape: Option<ShapeHeading>,
}

fn name_at(alloc: Global, header: &StringRecord, at: usize) -> Result<Words, AllocError>
    ensures { IfOk result (λ name. name ≡ field_of (fields_of header.now) at) }
{
    Words::from_str(alloc, field(header, at))
}

/// Returns the fields of a header.
fn names_of(alloc: Global, header: &StringRecord) -> Result<Vec<Words>, AllocError>
    ensures { IfOk result (λ names. names.items ≡ fields_of header.now) }
{
    let mut names = Vec::new(alloc);
    for at in 0..header.len() {
        names.push(name_at(alloc, header, at)?)?;
    }
    Ok(names)
}

fn position(names: &[Words], name: &str) -> Option<usize>
    ensures value { result ≡ position (λ other. bytes_eq other name.now) names.now }
    ensures bound { IfSome result (λ at. at < length names.now) }
{
    names.iter().position(|other| other.as_str() == name)
}

fn stands_behind(names: &[Words], at: usize, name: &str) -> bool
    requires { at < length names.now }
    ensures { result ≡ list_any (bytes_eq name.now) (drop (at + 1) names.now) }
{
    names
        .iter()
        .skip(at + 1)
        .any(|other| name == other.as_str())
}

/// Returns where a name stands in a header. Fails with `NoColumn` where it doesn't, and with `ColumnTwice`
/// where it stands there twice.
fn find_once(names: &[Words], name: &str) -> Result<usize, LayerFault>
    ensures { result ≡ heading_of names.now name.now }
{
    match position(names, name) {
        None => Err(LayerFault::NoColumn),
        Some(at) if stands_behind(names, at, name) => Err(LayerFault::ColumnTwice),
        Some(at) => Ok(at),
    }
}

fn column(names: &[Words], column: &(Words, Kind)) -> Result<Heading, LayerFault>
    ensures { result ≡ column_of names.now column.now }
{
    let at = find_once(names, column.0.as_str())?;
    Ok(Heading { kind: column.1, at })
}

/// Returns where the values of columns stand.
fn columns(
    alloc: Global,
    names: &[Words],
    columns: &[(Words, Kind)],
) -> Result<Vec<Heading>, LayerFault>
    ensures { Gives layer_lacks_memory (λ v. v.items) result (columns_of names.now columns.now) }
{
    let mut list = Vec::new(alloc);
    for one in columns {
        list.push(column(names, one)?)?;
    }
    Ok(list)
}

/// Returns where the shapes stand, in a table whose rows have any.
fn shape_heading(names: &[Words], form: Form) -> Result<Option<ShapeHeading>, LayerFault>
    ensures { result ≡ shape_heading_of names.now form }
{
    match form {
        Form::Bare => Ok(None),
        _ => {
            let at = find_once(names, SHAPE)?;
            Ok(Some(ShapeHeading { form, at }))
        }
    }
}

#[tactic(auto, unfolding(crate::specs::Layers::fields_in))]
fn headings_in(alloc: Global, names: &[Words], table: &TableDef) -> Result<Headings, LayerFault>
    ensures { Gives layer_lacks_memory seen_headings result (fields_in names.now table.now) }
{
    let key = find_once(names, KEY)?;
    let columns = columns(alloc, names, table.columns.as_slice())?;
    let shape = shape_heading(names, table.shape)?;
    Ok(Headings {
        width: names.len(),
        key,
        columns,
        shape,
    })
}

/// Returns where the fields of a table's rows stand. Fails with `NoTable` where there is no table, with
/// `ColumnTwice` where a column is called `WKT` and the rows have shapes, with `NoColumn` where the header lacks
/// `KEY`, a column of the table, or `WKT` where its rows have shapes, and with `ColumnTwice` where one of these
/// stands twice. Other names are passed over.
pub fn find_headings(
    alloc: Global,
    header: &StringRecord,
    table: Option<&TableDef>,
) -> Result<Headings, LayerFault>
    ensures { Gives layer_lacks_memory seen_headings result (fields_of_table (fields_of header.now) (option_copied table.entry)) }
{
    match table {
        None => Err(LayerFault::Unfit(RowFault::NoTable)),
        Some(table) if !can_be_layer(table) => Err(LayerFault::ColumnTwice),
        Some(table) => headings_in(alloc, names_of(alloc, header)?.as_slice(), table),
    }
}
