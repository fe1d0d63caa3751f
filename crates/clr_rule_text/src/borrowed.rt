//! JSON values over the text that they stand in.

ghost use Rattle.std.specs.Prelude.{◌≡◌, is_some, option_and_then, option_map};
ghost use Rattle.json.specs.Value.{value_view, items_view, members_view};
ghost use Rattle.serde_json.specs.Find.{as_i64};
ghost use Rattle.serde_json.specs.Read.{number_of, read};
ghost use Rattle.clr_readings.specs.Readings.{Gives};
ghost use Rattle.clr_rule_text.specs.Fields.{text_lacks_memory};
ghost use Rattle.clr_rule_text.specs.Seen.{fault_of, has_numbers as are_numbers, items_have_numbers as are_numbers_in};
ghost use Rattle.clr_rule_text.specs.Seen.{members_have_numbers as are_numbers_at, seen, value_if_read};

use crate::faults::TextFault;
use crate::json_values::JsonValue;
use crate::numbers::number_in_text;
use json::{Error, Reader, Scratch, Value};
use std::alloc::Global;

/// A JSON value whose keys, texts and numbers stand in the text that it was read from.
pub type BorrowedJson<'a> = Value<'a>;

/// How deep arrays and objects may nest.
const MOST_LEVELS: usize = 127;

/// Returns whether no number in a value is too large for a float.
#[cycle(numbers)]
fn has_numbers(json: &Value<'_>) -> bool
    ensures { result ≡ are_numbers (value_view json.now) }
{
    match json {
        Value::Number(text) => number_in_text(*text).is_some(),
        Value::Array(items) => items_have_numbers(items),
        Value::Object(members) => members_have_numbers(members),
        Value::Null => true,
        Value::Bool(_) => true,
        Value::String(_) => true,
    }
}

#[cycle(numbers)]
fn items_have_numbers(items: &Vec<Value<'_>>) -> bool
    ensures { result ≡ are_numbers_in (items_view items.now.items) }
{
    for item in items {
        if !has_numbers(item) {
            return false;
        }
    }
    true
}

#[cycle(numbers)]
fn members_have_numbers(members: &Vec<(&str, Value<'_>)>) -> bool
    ensures { result ≡ are_numbers_at (members_view members.now.items) }
{
    for member in members {
        if !has_numbers(&member.1) {
            return false;
        }
    }
    true
}

fn text_fault(error: Error) -> TextFault
    ensures { result ≡ fault_of error }
{
    match error {
        Error::OutOfMemory => TextFault::OutOfMemory,
        _ => TextFault::NotJson,
    }
}

/// Returns the value of a text, as `serde_json` reads it. Fails with `NotJson` where there is none.
pub fn read_value<'a>(
    alloc: Global,
    text: &'a str,
    scratch: &'a mut Scratch,
) -> Result<BorrowedJson<'a>, TextFault>
    ensures { Gives text_lacks_memory seen result (value_if_read (read text.now)) }
{
    let mut reader = Reader::new(text, scratch)?;
    let json = match Value::read(alloc, &mut reader, MOST_LEVELS) {
        Ok(json) => json,
        Err(error) => return Err(text_fault(error)),
    };
    if reader.next().is_some() {
        return Err(TextFault::NotJson);
    }
    if !has_numbers(&json) {
        return Err(TextFault::NotJson);
    }
    Ok(json)
}

impl<'a> JsonValue for Value<'a> {
    ghost stands_for = { seen };

    fn member(&self, key: &str) -> Option<&Value<'a>> {
        self.get(key)
    }

    fn text(&self) -> Option<&str> {
        self.as_str()
    }

    fn flag(&self) -> Option<bool> {
        self.as_bool()
    }

    fn whole_number(&self) -> Option<i64> {
        match self.as_number() {
            Some(text) => match number_in_text(text) {
                Some(found) => found,
                None => None,
            },
            None => None,
        }
    }

    fn items(&self) -> Option<&[Value<'a>]> {
        match self {
            Value::Array(list) => Some(list.as_slice()),
            Value::Null => None,
            Value::Bool(_) => None,
            Value::Number(_) => None,
            Value::String(_) => None,
            Value::Object(_) => None,
        }
    }
}
