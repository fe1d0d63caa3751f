//! Sides of rules: which rows are of one, and what rows have in their columns.

ghost use Rattle.std.specs.Prelude.{◌≡◌, Some, slice_get, option_map};
ghost use Rattle.std.specs.List.{list_all, zip};
ghost use Rattle.std.specs.Option.{option_copied};
ghost use Rattle.clr_rows.specs.Held.{held_of};
ghost use Rattle.clr_rules.specs.Sides.{same_field, passes, is_of_side, is_of, field, are_equal_in};

use crate::columns::Col;
use clr_rows::{Held, List, Row, Value};

/// What a side asks of its rows: for each pair of the list, the row has the literal in the column.
/// Columns are numbered from 0.
pub type Filter = List<(u16, Value)>;

/// A side of a rule: the rows of a table that pass a filter. Tables are numbered as in the schema.
#[derive(Debug, Drop)]
pub struct Side {
    pub table: u16,
    pub filter: Filter,
}

/// Returns the value of a row in a column, if it has the column.
fn value_in(row: &Row, column: u16) -> Option<&Value>
    ensures { option_map (λ v. v.now) result ≡ slice_get row.now.values column }
{
    row.values.as_slice().get(column as usize)
}

/// Returns whether a row has a value in a column.
#[tactic(auto, using(crate::proofs::FieldLemmas::is_same_field))]
fn has_value(row: &Row, column: u16, value: &Value) -> bool
    ensures { result ≡ same_field (slice_get row.now.values column) (Some value.now) }
{
    match value_in(row, column) {
        Some(other) => other.same(value),
        None => false,
    }
}

/// Returns whether a row has each literal of a filter in its column.
fn passes(filter: &Filter, row: &Row) -> bool
    ensures { result ≡ passes filter.now row.now }
{
    filter
        .as_slice()
        .iter()
        .all(|(column, value)| has_value(row, *column, value))
}

/// Returns whether a row is in the side's table and passes its filter.
#[tactic(auto, unfolding(crate::specs::Sides::is_of_side))]
pub fn is_of_side(side: &Side, held: Held) -> bool
    ensures { result ≡ is_of_side side.now (held_of held.entry) }
{
    held.cell.table == side.table && passes(&side.filter, held.row)
}

/// Returns whether there is a side and a row is of it.
pub fn is_of(side: Option<&Side>, held: Held) -> bool
    ensures { result ≡ is_of (option_copied side.entry) (held_of held.entry) }
{
    match side {
        Some(side) => is_of_side(side, held),
        None => false,
    }
}

/// Returns whether one row has in a column what another row has in another column.
fn have_same_field(first: Held, column: Col, second: Held, other: Col) -> bool
    ensures { result ≡ same_field (field (held_of first.entry) column) (field (held_of second.entry) other) }
{
    match (column, other) {
        (Col::Key, Col::Key) => first.cell.key == second.cell.key,
        (Col::Key, Col::At(n)) => has_value(second.row, n, &Value::Int(first.cell.key)),
        (Col::At(n), Col::Key) => has_value(first.row, n, &Value::Int(second.cell.key)),
        (Col::At(n), Col::At(m)) => have_same_value(first.row, n, second.row, m),
    }
}

/// Returns whether one row has in a column what another row has in another column: the same value,
/// or none in both.
#[tactic(auto, using(crate::proofs::FieldLemmas::is_same_field))]
fn have_same_value(first: &Row, column: u16, second: &Row, other: u16) -> bool
    ensures { result ≡ same_field (slice_get first.now.values column) (slice_get second.now.values other) }
{
    match (value_in(first, column), value_in(second, other)) {
        (Some(value), Some(other)) => value.same(other),
        (None, None) => true,
        _ => false,
    }
}

/// Returns whether one row has in each column what another row has in the column beside it.
fn are_equal_beside(first: Held, columns: &[Col], second: Held, others: &[Col]) -> bool
    ensures { result ≡ list_all (λ p. same_field (field (held_of first.entry) p.0) (field (held_of second.entry) p.1)) (zip columns.now others.now) }
{
    columns.iter().zip(others.iter()).all(|(column, other)| have_same_field(
        first, *column, second, *other,
    ))
}

/// Returns whether one row has in its columns what another row has in its own, in order.
#[tactic(auto, unfolding(crate::specs::Sides::are_equal_in))]
pub(crate) fn are_equal_in(first: Held, columns: &[Col], second: Held, others: &[Col]) -> bool
    ensures { result ≡ are_equal_in (held_of first.entry) columns.now (held_of second.entry) others.now }
{
    columns.len() == others.len() && are_equal_beside(first, columns, second, others)
}
