//! Sheets and rows. A row has one number.

use clr_rows::{CellId, Row, Shape, Sheet, Value, Values, Words};
use std::alloc::{AllocError, Global};

/// Returns a text of these letters.
pub fn words(alloc: Global, text: &str) -> Result<Words, AllocError> {
    Words::from_str(alloc, text)
}

/// Returns a cell of table 0.
pub fn cell(key: i64) -> CellId {
    CellId { table: 0, key }
}

/// Returns a row with one number.
pub fn row_of(alloc: Global, number: i64) -> Result<Row, AllocError> {
    let mut values = Vec::new(alloc);
    values.push(Value::Int(number))?;
    Ok(Row {
        values: Values::new(values),
        shape: Shape::Bare,
    })
}

/// Returns the number of a row, or 0 for a row of another kind.
pub fn number_of(row: &Row) -> i64 {
    match row.values.as_slice().first() {
        Some(Value::Int(number)) => *number,
        _ => 0,
    }
}

/// Returns a sheet with a row of this number at each of these keys.
pub fn numbered_sheet(alloc: Global, rows: &[(i64, i64)]) -> Result<Sheet, AllocError> {
    let mut sheet = Sheet::new(alloc);
    for (key, number) in rows {
        let _before = sheet.put(cell(*key), row_of(alloc, *number)?)?;
    }
    Ok(sheet)
}
