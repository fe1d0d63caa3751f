//! Which table isn't the same in two schemas.

ghost use Rattle.std.specs.Prelude.{◌≡◌, ◌↔◌, IsTrue, IfNone, IfSome, Some, slice_get};
ghost use Rattle.clr_desk_layers.specs.Since.{IsFirstOther};

use clr_rows::{Kind, TableDef, Words};

/// Returns whether two columns have the same name and the same kind.
fn is_same_column(one: &(Words, Kind), other: &(Words, Kind)) -> bool
    ensures { IsTrue result ↔ (one.now ≡ other.now) }
{
    one.0.same(&other.0) && one.1 == other.1
}

/// Returns whether columns have the same names and kinds in the same order.
fn are_same_columns(one: &[(Words, Kind)], other: &[(Words, Kind)]) -> bool
    ensures { IsTrue result ↔ (one.now ≡ other.now) }
{
    if one.len() != other.len() {
        return false;
    }
    for i in 0..one.len() {
        if !is_same_column(&one[i], &other[i]) {
            return false;
        }
    }
    true
}

/// Returns whether two tables have the same name, the same columns and the same form.
fn is_same_table(one: &TableDef, other: &TableDef) -> bool
    ensures { IsTrue result ↔ (one.now ≡ other.now) }
{
    one.name.same(&other.name)
        && one.shape == other.shape
        && are_same_columns(one.columns.as_slice(), other.columns.as_slice())
}

/// Returns whether the table of this number is the same as another.
fn is_table_at(tables: &[TableDef], number: usize, other: &TableDef) -> bool
    ensures { IsTrue result ↔ (slice_get tables.now number ≡ Some other.now) }
{
    match tables.get(number) {
        Some(table) => is_same_table(table, other),
        None => false,
    }
}

/// Returns the name of the first table that isn't the same in two schemas, or none where they are the same.
pub fn first_other<'a>(tables: &'a [TableDef], others: &'a [TableDef]) -> Option<&'a str>
    ensures same { IfNone result (tables.now ≡ others.now) }
    ensures other { IfSome result (λ name. IsFirstOther tables.now others.now name.now) }
{
    for i in 0..tables.len() {
        if !is_table_at(others, i, &tables[i]) {
            return Some(tables[i].name.as_str());
        }
    }
    match others.get(tables.len()) {
        Some(other) => Some(other.name.as_str()),
        None => None,
    }
}
