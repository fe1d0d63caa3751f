//! Values of JSON texts, as a sentence names them.

ghost use Rattle.std.specs.Prelude.{◌≡◌, ℕ, List, IfOk, string_bytes};
ghost use Rattle.serde_json.specs.View.{view};
ghost use Rattle.clr_hints.specs.Values.{IsWritten, kind_in_words, short_text};

use serde_json::Value as Json;
use std::alloc::{AllocError, Global};

/// The most characters of a value that a sentence shows.
const MOST_SHOWN: usize = 40;

/// Returns a text, cut behind its first characters where it is long.
#[tactic(auto, using(crate::proofs::SentenceLemmas::cut_text))]
pub fn shorten(alloc: Global, text: &str) -> Result<String, AllocError>
    ensures { IfOk result (λ short. string_bytes short ≡ short_text text.now) }
{
    let mut short = format!(in alloc; "{text:.MOST_SHOWN$}")?;
    if short.len() < text.len() {
        short.push_str("..")?;
    }
    Ok(short)
}

/// Returns a value as it is written, cut behind its first characters where it is long.
pub fn shorten_value(alloc: Global, json: &Json) -> Result<String, AllocError>
    ensures { IfOk result (λ short. (text : List ℕ) × IsWritten (view json.now) text × (string_bytes short ≡ short_text text)) }
{
    let text = json.to_string(alloc)?;
    shorten(alloc, text.as_str())
}

/// Returns which kind of value this is, with its article.
pub fn kind_of(json: &Json) -> &'static str
    ensures { result.now ≡ kind_in_words (view json.now) }
{
    if json.is_string() {
        "a text"
    } else if json.is_number() {
        "a number"
    } else if json.is_array() {
        "a list"
    } else if json.is_object() {
        "an object"
    } else if json.is_null() {
        "null"
    } else {
        "a flag"
    }
}
