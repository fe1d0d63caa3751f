//! Rows as texts.

use clr_rows::{Row, Value};

/// Returns the first text of a row, or `none` where there is no row.
pub(crate) fn text_in(row: Option<&Row>) -> &str {
    match row {
        Some(row) => match row.values.as_slice().first() {
            Some(Value::Words(text)) => text.as_str(),
            _ => "",
        },
        None => "none",
    }
}
