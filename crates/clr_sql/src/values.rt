//! Values as SQL has them.

ghost use Rattle.std.specs.Prelude.{◌≡◌, ◌++◌, OnOk};
ghost use Rattle.std.specs.List.{list_any};
ghost use Rattle.clr_sql.specs.Values.{has_lost_byte, is_lost, is_sayable, value_text};

use crate::quoting::add_text;
use clr_rows::{Row, Value};
use itoa::Buffer;
use std::alloc::AllocError;

/// Adds a value: a number in decimal, or a text in quotes. If memory runs out, part of it may have been added.
pub fn add_value(text: &mut Vec<u8>, value: &Value) -> Result<(), AllocError>
    ensures { OnOk result (text.new.items ≡ text.old.items ++ value_text value.now) }
{
    match value {
        Value::Int(number) => text.extend_from_slice(Buffer::new().format(*number).as_bytes()),
        Value::Words(words) => add_text(text, words.as_str().as_bytes()),
    }
}

/// Returns whether a byte isn't handed on as it is by the programs that run SQL.
fn is_lost(byte: u8) -> bool
    ensures { result ≡ is_lost byte }
{
    byte == 0 || byte == b'\r'
}

/// Returns whether a text has such a byte.
fn has_lost(text: &str) -> bool
    ensures { result ≡ list_any is_lost text.now }
{
    text.as_bytes().iter().any(|byte| is_lost(*byte))
}

/// Returns whether a value is a text with a byte 0 or a carriage return, which `psql` and `sqlite3` don't hand on as they are.
pub fn has_lost_byte(value: &Value) -> bool
    ensures { result ≡ has_lost_byte value.now }
{
    match value {
        Value::Int(_) => false,
        Value::Words(words) => has_lost(words.as_str()),
    }
}

/// Returns whether the texts of a row are handed on by `psql` and `sqlite3` as they are: none of them has a byte 0 or a carriage return.
pub fn is_sayable(row: &Row) -> bool
    ensures { result ≡ is_sayable row.now }
{
    row.values
        .as_slice()
        .iter()
        .all(|value| !has_lost_byte(value))
}
