//! Rows that serve under a rule.

ghost use Rattle.std.specs.Prelude.{◌≡◌, IfOk, map};
ghost use Rattle.std.specs.List.{enumerate_from};
ghost use Rattle.clr_tips.specs.Rows.{empty_value, serving_row, wanted_in, wanted_value};

use clr_rows::{Kind, Place, Row, Shape, TableDef, Value, Values, Words};
use clr_rules::{Filter, Side};
use std::alloc::{AllocError, Global};

/// Returns an empty value of a kind.
fn empty_value(alloc: Global, kind: Kind) -> Value
    ensures { result ≡ empty_value kind }
{
    match kind {
        Kind::Int => Value::Int(0),
        Kind::Words => Value::Words(Words::new(String::new(alloc))),
    }
}

/// Returns the value that a filter asks for in a column, or an empty one of its kind.
fn wanted_value(
    alloc: Global,
    filter: &Filter,
    column: usize,
    kind: Kind,
) -> Result<Value, AllocError>
    ensures { IfOk result (λ value. value ≡ wanted_value filter.now column kind) }
{
    for (at, value) in filter.as_slice() {
        if *at as usize == column {
            return value.copy();
        }
    }
    Ok(empty_value(alloc, kind))
}

/// Returns the values of a row of a side: those that the side asks for, and else empty ones.
fn wanted_values(
    alloc: Global,
    columns: &[(Words, Kind)],
    filter: &Filter,
) -> Result<Vec<Value>, AllocError>
    ensures { IfOk result (λ values. values.items ≡ map (wanted_in filter.now) (enumerate_from 0 columns.now)) }
{
    let mut values = Vec::new(alloc);
    for at in 0..columns.len() {
        values.push(wanted_value(alloc, filter, at, columns[at].1)?)?;
    }
    Ok(values)
}

/// Returns a row of a side at a place: values that the side asks for, and else empty ones.
pub fn serving_row(
    alloc: Global,
    table: &TableDef,
    side: &Side,
    place: Place,
) -> Result<Row, AllocError>
    ensures { IfOk result (λ row. row ≡ serving_row table.now side.now place) }
{
    let values = wanted_values(alloc, table.columns.as_slice(), &side.filter)?;
    Ok(Row {
        values: Values::new(values),
        shape: Shape::At(place),
    })
}
