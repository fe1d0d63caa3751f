//! Values of rows, as tests write them.

use clr_rows::{Value, Values, Words};
use std::alloc::Global;

/// Returns a number with or without a sign.
pub fn number(text: &str) -> Option<i64> {
    text.parse::<i64>().ok()
}

/// Returns the number of a table, a column or a part, or how often a text stands.
pub fn ordinal(text: &str) -> Option<u16> {
    text.parse::<u16>().ok()
}

/// Returns the text itself.
pub fn words(alloc: Global, text: &str) -> Option<Words> {
    Words::from_str(alloc, text).ok()
}

/// Returns a text as often as the number after a star says.
fn repeat(alloc: Global, text: &str) -> Option<Words> {
    let (part, times) = text.split_once('*').unwrap_or((text, "1"));
    let mut whole = String::new(alloc);
    for _ in 0..ordinal(times)? {
        whole.push_str(part).ok()?;
    }
    Some(Words::new(whole))
}

/// Returns a text after a quote, as often as the number after a star says; or a number.
pub fn value(alloc: Global, text: &str) -> Option<Value> {
    match text.strip_prefix('\'') {
        Some(text) => Some(Value::Words(repeat(alloc, text)?)),
        None => Some(Value::Int(number(text)?)),
    }
}

/// Returns values that are parted by plus signs, or none for a hyphen.
pub fn values(alloc: Global, text: &str) -> Option<Values> {
    let mut list = Vec::new(alloc);
    if text == "-" {
        return Some(Values::new(list));
    }
    for part in text.split('+') {
        list.push(value(alloc, part)?).ok()?;
    }
    Some(Values::new(list))
}

/// Adds a text, after a space where it isn't the first.
pub fn add_word(line: &mut String, word: &str) -> Option<()> {
    if line.len() > 0 {
        line.push(' ').ok()?;
    }
    line.push_str(word).ok()
}
