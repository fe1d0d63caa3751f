//! Values of rows and of literals.

ghost use Rattle.clr_readings.specs.Readings.{Gives};
ghost use Rattle.clr_rule_text.specs.Fields.{text_lacks_memory};
ghost use Rattle.clr_rule_text.specs.Values.{value_of};

use crate::faults::TextFault;
use crate::fields::{number, words_from};
use crate::json_values::JsonValue;
use clr_rows::Value;
use std::alloc::Global;

/// Returns a text or a whole number. Fails with `BadField` where it is anything else.
pub fn value<J: JsonValue>(alloc: Global, json: &J) -> Result<Value, TextFault>
    ensures { Gives text_lacks_memory (λ v. v) result (value_of (J.stands_for json.now)) }
{
    match json.text() {
        Some(text) => Ok(Value::Words(words_from(alloc, text)?)),
        None => Ok(Value::Int(number(json)?)),
    }
}
