//! Fields of JSON values.

ghost use Rattle.std.specs.Prelude.{◌≡◌, Ok};
ghost use Rattle.serde_json.specs.Find.{get};
ghost use Rattle.clr_readings.specs.Readings.{Gives};
ghost use Rattle.clr_rule_text.specs.Fields.{field_of, flag_or_not, list_at, array_of, list_or_none, number_at, number_of, words_at, words_of};
ghost use Rattle.clr_rule_text.specs.Fields.{text_lacks_memory};
ghost use Rattle.clr_rule_text.specs.Seen.{items_seen};

use crate::faults::TextFault;
use crate::json_values::JsonValue;
use clr_rows::Words;
use std::alloc::Global;

/// Returns the value at a key of an object. Fails with `BadField` where it isn't there.
pub fn field<'a, J: JsonValue>(json: &'a J, key: &str) -> Result<&'a J, TextFault>
    ensures { Gives text_lacks_memory (λ v. J.stands_for v.now) result (field_of key.now (J.stands_for json.now)) }
{
    match json.member(key) {
        Some(found) => Ok(found),
        None => Err(TextFault::BadField),
    }
}

/// Returns the whole number of 64 bits that a value is. Fails with `BadField` where it is anything
/// else, also a number like 1.0.
pub fn number<J: JsonValue>(json: &J) -> Result<i64, TextFault>
    ensures { Gives text_lacks_memory (λ n. n) result (number_of (J.stands_for json.now)) }
{
    match json.whole_number() {
        Some(found) => Ok(found),
        None => Err(TextFault::BadField),
    }
}

/// Returns the text that a value is. Fails with `BadField` where it is anything else.
pub fn words<J: JsonValue>(json: &J) -> Result<&str, TextFault>
    ensures { Gives text_lacks_memory (λ s. s.now) result (words_of (J.stands_for json.now)) }
{
    match json.text() {
        Some(found) => Ok(found),
        None => Err(TextFault::BadField),
    }
}

/// Returns the list that a value is. Fails with `BadField` where it is anything else.
pub fn list<J: JsonValue>(json: &J) -> Result<&[J], TextFault>
    ensures { Gives text_lacks_memory (λ v. items_seen J.stands_for v.now) result (array_of (J.stands_for json.now)) }
{
    match json.items() {
        Some(found) => Ok(found),
        None => Err(TextFault::BadField),
    }
}

/// Returns the whole number at a key. Fails with `BadField` where there is none.
pub fn number_in<J: JsonValue>(json: &J, key: &str) -> Result<i64, TextFault>
    ensures { Gives text_lacks_memory (λ n. n) result (number_at key.now (J.stands_for json.now)) }
{
    number(field(json, key)?)
}

/// Returns the text at a key, where it stands. Fails with `BadField` where there is none.
pub(crate) fn text_in<'a, J: JsonValue>(json: &'a J, key: &str) -> Result<&'a str, TextFault>
    ensures { Gives text_lacks_memory (λ s. s.now) result (words_at key.now (J.stands_for json.now)) }
{
    words(field(json, key)?)
}

/// Returns a copy of a text. It fails only with `OutOfMemory`.
pub fn words_from(alloc: Global, text: &str) -> Result<Words, TextFault>
    ensures { Gives text_lacks_memory (λ w. w) result (Ok text.now) }
{
    Ok(Words::from_str(alloc, text)?)
}

/// Returns the text at a key. Fails with `BadField` where there is none.
pub fn words_in<J: JsonValue>(alloc: Global, json: &J, key: &str) -> Result<Words, TextFault>
    ensures { Gives text_lacks_memory (λ w. w) result (words_at key.now (J.stands_for json.now)) }
{
    words_from(alloc, text_in(json, key)?)
}

/// Returns the list at a key. Fails with `BadField` where there is none.
pub fn list_in<'a, J: JsonValue>(json: &'a J, key: &str) -> Result<&'a [J], TextFault>
    ensures { Gives text_lacks_memory (λ v. items_seen J.stands_for v.now) result (list_at key.now (J.stands_for json.now)) }
{
    list(field(json, key)?)
}

/// Returns the list at a key, or the empty one where the key is missing. Fails with `BadField`
/// where something else is there.
pub fn optional_list<'a, J: JsonValue>(json: &'a J, key: &str) -> Result<&'a [J], TextFault>
    ensures { Gives text_lacks_memory (λ v. items_seen J.stands_for v.now) result (list_or_none (get key.now (J.stands_for json.now))) }
{
    match json.member(key) {
        Some(found) => list(found),
        None => Ok(&[]),
    }
}

/// Returns the flag at a key, or false where the key is missing. Fails with `BadField` where
/// something else is there.
pub fn optional_flag<J: JsonValue>(json: &J, key: &str) -> Result<bool, TextFault>
    ensures { Gives text_lacks_memory (λ b. b) result (flag_or_not (get key.now (J.stands_for json.now))) }
{
    match json.member(key) {
        Some(found) => match found.flag() {
            Some(flag) => Ok(flag),
            None => Err(TextFault::BadField),
        },
        None => Ok(false),
    }
}
