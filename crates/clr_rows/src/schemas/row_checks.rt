//! The tests that a row must pass to stand at a cell of a table.

ghost use Rattle.std.specs.Prelude.{◌≡◌, ◌&&◌, List, nat_le, length};
ghost use Rattle.std.specs.List.{list_all, list_any};
ghost use Rattle.clr_rows.specs.Parts.{path_parts};
ghost use Rattle.clr_rows.specs.Same.{same_place};
ghost use Rattle.clr_rows.specs.Schemas.{Answers, fault_in, is_of_kind, are_of_kinds, is_short, is_of_form, is_key};
ghost use Rattle.clr_rows.specs.Schemas.{is_place, has_coordinates, is_number, has_zero_part, is_bad_path};

use crate::cells::CellId;
use crate::faults::RowFault;
use crate::limits::{
    GREATEST_COORDINATE, GREATEST_KEY, LEAST_VERTICES, MOST_TEXT_BYTES, MOST_VERTICES,
};
use crate::numbers::read_values;
use crate::places::{Place, Shape};
use crate::rows::{Row, Value};
use crate::tables::{Form, Kind, TableDef};
use crate::texts::Words;

/// Returns whether a primary key is one that a row may have.
pub(super) fn is_key(key: i64) -> bool
    ensures { result ≡ is_key key }
{
    1 <= key && key <= GREATEST_KEY
}

fn is_place(place: Place) -> bool
    ensures { result ≡ is_place place }
{
    place.x.unsigned_abs() <= GREATEST_COORDINATE && place.y.unsigned_abs() <= GREATEST_COORDINATE
}

fn are_places(places: &[Place]) -> bool
    ensures { result ≡ list_all is_place places.now }
{
    places.iter().all(|place| is_place(*place))
}

fn has_coordinates(shape: &Shape) -> bool
    ensures { result ≡ has_coordinates shape.now }
{
    match shape {
        Shape::Bare => true,
        Shape::At(place) => is_place(*place),
        Shape::Line(first, second) => is_place(*first) && is_place(*second),
        Shape::Chain(vertices) => are_places(vertices.as_slice()),
    }
}

/// Returns whether a vertex equals the next one.
fn have_repeat(vertices: &[Place]) -> bool
    ensures { result ≡ list_any (λ part. same_place part.0 part.1) (path_parts vertices.now) }
{
    vertices
        .iter()
        .zip(vertices.iter().skip(1))
        .any(|(first, second)| first.same(second))
}

/// Returns whether a part of the shape ends where it begins.
fn has_zero_part(shape: &Shape) -> bool
    ensures { result ≡ has_zero_part shape.now }
{
    match shape {
        Shape::Bare => false,
        Shape::At(_) => false,
        Shape::Line(first, second) => first.same(second),
        Shape::Chain(vertices) => have_repeat(vertices.as_slice()),
    }
}

/// Returns whether the shape is a path of too few or too many vertices.
fn is_bad_path(shape: &Shape) -> bool
    ensures { result ≡ is_bad_path shape.now }
{
    match shape {
        Shape::Chain(vertices) => {
            let count = vertices.as_slice().len();
            !(LEAST_VERTICES <= count && count <= MOST_VERTICES)
        }
        _ => false,
    }
}

fn is_of_form(form: Form, shape: &Shape) -> bool
    ensures { result ≡ is_of_form form shape.now }
{
    match (form, shape) {
        (Form::Bare, Shape::Bare) => true,
        (Form::Point, Shape::At(_)) => true,
        (Form::Segment, Shape::Line(_, _)) => true,
        (Form::Path, Shape::Chain(_)) => true,
        _ => false,
    }
}

fn is_of_kind(kind: Kind, value: &Value) -> bool
    ensures { result ≡ is_of_kind kind value.now }
{
    match (kind, value) {
        (Kind::Int, Value::Int(_)) => true,
        (Kind::Words, Value::Words(_)) => true,
        _ => false,
    }
}

fn are_of_kinds(columns: &[(Words, Kind)], values: &[Value]) -> bool
    ensures { result ≡ are_of_kinds columns.now values.now }
{
    columns
        .iter()
        .zip(values.iter())
        .all(|(column, value)| is_of_kind(column.1, value))
}

/// Returns whether a value is no text of more than 200 bytes.
fn is_short(value: &Value) -> bool
    ensures { result ≡ is_short value.now }
{
    match value {
        Value::Int(_) => true,
        Value::Words(text) => text.as_str().len() <= MOST_TEXT_BYTES,
    }
}

fn are_short(values: &[Value]) -> bool
    ensures { result ≡ list_all is_short values.now }
{
    values.iter().all(is_short)
}

/// Tests whether a row can stand at a cell of this table. Fails with the fault of the first test
/// that the row doesn't pass.
pub(super) fn check_row(table: &TableDef, cell: CellId, row: &Row) -> Result<(), RowFault>
    ensures { Answers result (fault_in table.now cell row.now) }
{
    let values = row.values.as_slice();
    read_values(values);
    let columns = table.columns.as_slice();
    if values.len() != columns.len() {
        Err(RowFault::WrongCount)
    } else if !are_of_kinds(columns, values) {
        Err(RowFault::WrongKind)
    } else if !are_short(values) {
        Err(RowFault::WordsTooLong)
    } else if !is_of_form(table.shape, &row.shape) {
        Err(RowFault::WrongShape)
    } else if !(is_key(cell.key) && has_coordinates(&row.shape)) {
        Err(RowFault::OutOfRange)
    } else if has_zero_part(&row.shape) {
        Err(RowFault::ZeroSegment)
    } else if is_bad_path(&row.shape) {
        Err(RowFault::BadPath)
    } else {
        Ok(())
    }
}
