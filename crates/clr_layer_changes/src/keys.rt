//! Keys for rows that have none.

ghost use Rattle.std.specs.Prelude.{◌≡◌, ◌<◌, ◌≤◌, ◌^◌, unsigned_abs, IfSome};
ghost use Rattle.clr_rows.specs.declared.limits.TheConstants.{GREATEST_KEY as GREATEST};
ghost use Rattle.clr_layer_changes.specs.Keys.{ArePassed, cell_of, is_free, least_free};

use clr_rows::{CellId, GREATEST_KEY, Sheet};

/// Returns the cell of a key of a table.
pub(crate) fn cell_of(table: u16, key: u64) -> CellId
    requires { key < 2 ^ 63 }
    ensures { result ≡ cell_of table key }
{
    CellId {
        table,
        key: key as i64,
    }
}

/// Returns whether a key is 1 or more and neither LIVE nor other rows have a row of the table at it.
fn is_free(live: &Sheet, rows: &Sheet, table: u16, key: u64) -> bool
    requires { key < 2 ^ 63 }
    ensures { result ≡ is_free live.now rows.now table key }
{
    let cell = cell_of(table, key);
    key > 0 && live.get(cell).is_none() && rows.get(cell).is_none()
}

/// Returns the least key from a number on that is free, or none up to the greatest key.
pub(crate) fn least_free(live: &Sheet, rows: &Sheet, table: u16, first: u64) -> Option<u64>
    ensures value { result ≡ least_free live.now rows.now table first }
    ensures small { IfSome result (λ key. key ≤ unsigned_abs GREATEST) }
    ensures passed { IfSome result (ArePassed (is_free live.now rows.now table) first) }
{
    for key in first..GREATEST_KEY as u64 + 1 {
        if is_free(live, rows, table, key) {
            return Some(key);
        }
    }
    None
}
