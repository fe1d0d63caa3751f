//! Which texts are marked as cuts.

ghost use Rattle.std.specs.Prelude.{◌≡◌, codes, false, IfOk};
ghost use Rattle.std.specs.Option.{option_map_or};
ghost use Rattle.serde_json.specs.Read.{read};
ghost use Rattle.clr_rule_text.specs.Fields.{number_at, number_of};
ghost use Rattle.clr_cut_texts.specs.Marks.{has_mark, is_cut_text, is_four, is_marked};

use clr_rule_text::TextFault;
use clr_rule_text::borrowed::read_value;
use clr_rule_text::json_values::JsonValue;
use json::Scratch;
use simdutf8::compat::from_utf8;
use std::alloc::{AllocError, Global};

/// The key of the mark.
pub const MARK: &str = "cut";

/// The key of the mark is this.
pub fn limit_of_marks()
    ensures { MARK.now ≡ codes "cut" }
{}

/// Returns whether a value is the number 4.
fn is_four<J: JsonValue>(json: &J) -> bool
    ensures { result ≡ is_four (number_of (J.stands_for json.now)) }
{
    match json.whole_number() {
        Some(number) => number == 4,
        None => false,
    }
}

/// Returns whether a value is of format 4.
fn is_of_format_four<J: JsonValue>(json: &J) -> bool
    ensures { result ≡ is_four (number_at (codes "format") (J.stands_for json.now)) }
{
    match json.member("format") {
        Some(format) => is_four(format),
        None => false,
    }
}

/// Returns whether the mark of a value is `true`.
fn has_mark<J: JsonValue>(json: &J) -> bool
    ensures { result ≡ has_mark (J.stands_for json.now) }
{
    match json.member(MARK) {
        Some(mark) => mark.flag().unwrap_or(false),
        None => false,
    }
}

/// Returns whether a value is marked: its format is 4, and the mark is `true`.
fn is_marked<J: JsonValue>(json: &J) -> bool
    ensures { result ≡ is_marked (J.stands_for json.now) }
{
    is_of_format_four(json) && has_mark(json)
}

/// Returns whether a text of characters is marked.
fn is_marked_text(alloc: Global, text: &str) -> Result<bool, AllocError>
    ensures { IfOk result (λ is_cut. is_cut ≡ option_map_or is_marked (read text.now) false) }
{
    let mut scratch = Scratch::new(alloc);
    match read_value(alloc, text, &mut scratch) {
        Ok(json) => Ok(is_marked(&json)),
        Err(TextFault::OutOfMemory) => Err(AllocError),
        Err(_) => Ok(false),
    }
}

/// Returns whether a text is marked as a cut. One that isn't JSON, or is of another format than 4, isn't.
pub fn is_cut(alloc: Global, bytes: &[u8]) -> Result<bool, AllocError>
    ensures { IfOk result (λ is_cut. is_cut ≡ is_cut_text bytes.now) }
{
    match from_utf8(bytes) {
        Ok(text) => is_marked_text(alloc, text),
        Err(_) => Ok(false),
    }
}
