//! Fields of objects that are missing, or that aren't what must stand there.
ghost use Rattle.std.specs.Prelude.{◌≡◌, ℕ, List, ◌++◌, [], codes, length, map, option_map, string_bytes, IfOk};
ghost use Rattle.serde_json.specs.Data.{string};
ghost use Rattle.serde_json.specs.View.{view};
ghost use Rattle.clr_text_positions.specs.Keys.{key_text};
ghost use Rattle.clr_item_explanations.specs.Fields.{admits, is_optional, missing, wanted_text, wrong_coordinate, wrong_field, wrong_fields};
ghost use Rattle.clr_item_explanations.specs.Fields.{wrong_value, wrong_word, wrong_word_at};
ghost use Rattle.clr_item_explanations.specs.Slips.{said};
ghost use Rattle.clr_item_explanations.specs.Tellings.{IsShown, OfCoordinate, OfValue, OfWord, Tells, TellsIfAny, coordinate_hint, itself};
ghost use Rattle.clr_item_explanations.specs.Values.{items_at, stands_among, text_at};

use crate::slips::{Slip, below_any};
use clr_hints::{metres_hint, name_hint, shorten_value};
use clr_text_positions::{Key, PathStep};
use serde_json::Value as Json;
use std::alloc::{AllocError, Global};

/// What must stand at a key.
#[derive(Clone, Copy, Debug, PartialEq, Eq)]
pub enum Wanted {
    Text,
    WholeNumber,
    Value,
    List,
    OptionalList,
    OptionalFlag,
    Object,
}

impl Wanted {
    /// Returns whether a value may stand there.
    fn admits(self, json: &Json) -> bool
        ensures { result ≡ admits self (view json.now) }
    {
        match self {
            Wanted::Text => json.is_string(),
            Wanted::WholeNumber => json.as_i64().is_some(),
            Wanted::Value => json.is_string() || json.as_i64().is_some(),
            Wanted::List | Wanted::OptionalList => json.is_array(),
            Wanted::OptionalFlag => json.is_boolean(),
            Wanted::Object => json.is_object(),
        }
    }

    fn is_optional(self) -> bool
        ensures { result ≡ is_optional self }
    {
        matches!(self, Wanted::OptionalList | Wanted::OptionalFlag)
    }

    /// Returns what must stand there, with its article.
    fn name(self) -> &'static str
        ensures { result.now ≡ wanted_text self }
    {
        match self {
            Wanted::Text => "a text",
            Wanted::WholeNumber => "a whole number of 64 bits",
            Wanted::Value => "a text or a whole number of 64 bits",
            Wanted::List | Wanted::OptionalList => "a list",
            Wanted::OptionalFlag => "true or false",
            Wanted::Object => "an object",
        }
    }
}

/// Returns the text at a key, or no text.
#[tactic(auto, unfolding(crate::specs::Values::text_at))]
pub fn text_at(json: &Json, key: Key) -> &str
    ensures { result.now ≡ text_at key (view json.now) }
{
    match json.get(key.as_str()) {
        Some(value) => value.as_str().unwrap_or(""),
        None => "",
    }
}

/// Returns the items of the list at a key, or none of them where no list stands there.
#[tactic(auto, using(crate::proofs::ValueLemmas::listed_items), unfolding(crate::specs::Values::items_at))]
pub fn items_at(json: &Json, key: Key) -> &[Json]
    ensures { map view result.now ≡ items_at key (view json.now) }
{
    match json.get(key.as_str()) {
        Some(value) => match value.as_array() {
            Some(items) => items.as_slice(),
            None => &[],
        },
        None => &[],
    }
}

/// Returns how many items the list at a key has, and 0 where no list stands there.
#[tactic(auto, using(crate::proofs::ValueLemmas::as_many))]
pub fn count_at(json: &Json, key: Key) -> usize
    ensures { result ≡ length (items_at key (view json.now)) }
{
    items_at(json, key).len()
}

/// Returns a value as it is written, with words behind it.
fn value_words(alloc: Global, json: &Json, words: &str, more: &str) -> Result<String, AllocError>
    ensures { IfOk result (λ text. (shown : List ℕ) × IsShown (view json.now) shown × (string_bytes text ≡ shown ++ words.now ++ more.now)) }
{
    let mut text = shorten_value(alloc, json)?;
    text.push_str(words)?;
    text.push_str(more)?;
    Ok(text)
}

/// Returns the slip that says of a value what stands behind it in these words.
#[tactic(auto, using(crate::proofs::TellingLemmas::words_told))]
pub(crate) fn value_slip(
    alloc: Global,
    json: &Json,
    words: &str,
    more: &str,
) -> Result<Slip, AllocError>
    ensures { IfOk result (λ slip. Tells (itself (OfValue [] (view json.now) (words.now ++ more.now))) (said slip)) }
{
    let sentence = value_words(alloc, json, words, more)?;
    Slip::new(alloc, &[], sentence)
}

/// Returns what is wrong with a value, where it isn't what must stand there.
#[tactic(auto, using(crate::proofs::TellingLemmas::right_or_wrong), unfolding(crate::specs::Fields::wrong_value))]
pub(crate) fn explain_value(
    alloc: Global,
    json: &Json,
    wanted: Wanted,
) -> Result<Option<Slip>, AllocError>
    ensures { IfOk result (TellsIfAny (wrong_value wanted (view json.now))) }
{
    if wanted.admits(json) {
        return Ok(None);
    }
    Ok(Some(value_slip(alloc, json, " isn't ", wanted.name())?))
}

/// Returns a hint at the whole millimetres of a number that may be meant in metres.
fn coordinate_hint(alloc: Global, json: &Json, text: &str) -> Result<Option<String>, AllocError>
    ensures { IfOk result (λ hint. option_map string_bytes hint ≡ coordinate_hint (view json.now) text.now) }
{
    if json.is_number() {
        metres_hint(alloc, text)
    } else {
        Ok(None)
    }
}

/// Returns the slip that a value is no coordinate.
#[tactic(auto, using(crate::proofs::TellingLemmas::coordinate_told))]
fn no_coordinate(alloc: Global, json: &Json) -> Result<Slip, AllocError>
    ensures { IfOk result (λ slip. Tells (itself (OfCoordinate (view json.now))) (said slip)) }
{
    let text = shorten_value(alloc, json)?;
    let sentence = format!(in alloc;
        "{text} is no whole number; coordinates are whole millimetres"
    )?;
    let hint = coordinate_hint(alloc, json, text.as_str())?;
    Ok(Slip::new(alloc, &[], sentence)?.with_hint(hint))
}

/// Returns what is wrong with a coordinate, where it is no whole number.
#[tactic(auto, using(crate::proofs::TellingLemmas::right_or_wrong), unfolding(crate::specs::Fields::wrong_coordinate))]
pub(crate) fn explain_coordinate(alloc: Global, json: &Json) -> Result<Option<Slip>, AllocError>
    ensures { IfOk result (TellsIfAny (wrong_coordinate (view json.now))) }
{
    if json.as_i64().is_some() {
        return Ok(None);
    }
    Ok(Some(no_coordinate(alloc, json)?))
}

/// Returns the words that a key is missing at which something must stand.
fn missing_words(alloc: Global, key: Key, wanted: Wanted) -> Result<String, AllocError>
    ensures { IfOk result (λ text. string_bytes text
        ≡ codes "the key '" ++ key_text key ++ codes "' is missing; " ++ wanted_text wanted ++ codes " stands there") }
{
    let mut text = String::from_str(alloc, "the key '")?;
    text.push_str(key.as_str())?;
    text.push_str("' is missing; ")?;
    text.push_str(wanted.name())?;
    text.push_str(" stands there")?;
    Ok(text)
}

/// Returns what is wrong where a key is missing: nothing, where what stands there is optional.
#[tactic(auto, using(crate::proofs::TellingLemmas::right_if, crate::proofs::TellingLemmas::plain_else), unfolding(crate::specs::Fields::missing))]
pub(crate) fn missing(alloc: Global, key: Key, wanted: Wanted) -> Result<Option<Slip>, AllocError>
    ensures { IfOk result (TellsIfAny (missing key wanted)) }
{
    if wanted.is_optional() {
        return Ok(None);
    }
    let sentence = missing_words(alloc, key, wanted)?;
    Ok(Some(Slip::new(alloc, &[], sentence)?))
}

/// Returns what is wrong with the value at a key of an object, where it is missing or isn't what must
/// stand there.
#[tactic(auto, unfolding(crate::specs::Fields::wrong_field, crate::specs::Fields::wrong_at))]
pub fn explain_field(
    alloc: Global,
    json: &Json,
    key: Key,
    wanted: Wanted,
) -> Result<Option<Slip>, AllocError>
    ensures { IfOk result (TellsIfAny (wrong_field key wanted (view json.now))) }
{
    let Some(value) = json.get(key.as_str()) else {
        return missing(alloc, key, wanted);
    };
    let found = explain_value(alloc, value, wanted)?;
    below_any(alloc, found, &[PathStep::Key(key)])
}

/// Returns what is wrong with the first of these fields of an object that is missing or isn't what must
/// stand there.
#[tactic(auto, unfolding(crate::specs::Fields::wrong_fields))]
pub fn explain_fields(
    alloc: Global,
    json: &Json,
    fields: &[(Key, Wanted)],
) -> Result<Option<Slip>, AllocError>
    ensures { IfOk result (TellsIfAny (wrong_fields fields.now (view json.now))) }
{
    for (key, wanted) in fields {
        if let Some(slip) = explain_field(alloc, json, *key, *wanted)? {
            return Ok(Some(slip));
        }
    }
    Ok(None)
}

/// Returns whether a text is one of some.
#[tactic(auto, using(crate::proofs::ValueLemmas::among_lent))]
pub fn stands_among(texts: &[&str], text: &str) -> bool
    ensures { result ≡ stands_among (map (λ one. one.now) texts.now) text.now }
{
    texts.contains(&text)
}

/// Returns the slip that a text is none of the words that may stand there.
#[tactic(auto, using(crate::proofs::TellingLemmas::word_told))]
fn no_word(alloc: Global, json: &Json, word: &str, words: &[&str]) -> Result<Slip, AllocError>
    requires { view json.now ≡ string word.now }
    ensures { IfOk result (λ slip. Tells (itself (OfWord word.now (map (λ one. one.now) words.now))) (said slip)) }
{
    let text = shorten_value(alloc, json)?;
    let sentence = format!(in alloc; "{text} is no word that may stand here")?;
    let hint = name_hint(alloc, word, words)?;
    Ok(Slip::new(alloc, &[], sentence)?.with_hint(hint))
}

/// Returns what is wrong with a word, where it is none of those that may stand there.
#[tactic(auto, using(crate::proofs::TellingLemmas::word_or_none), unfolding(crate::specs::Fields::wrong_word))]
pub(crate) fn explain_word(
    alloc: Global,
    json: &Json,
    words: &[&str],
) -> Result<Option<Slip>, AllocError>
    ensures { IfOk result (TellsIfAny (wrong_word (map (λ one. one.now) words.now) (view json.now))) }
{
    let Some(word) = json.as_str() else {
        return explain_value(alloc, json, Wanted::Text);
    };
    if stands_among(words, word) {
        return Ok(None);
    }
    Ok(Some(no_word(alloc, json, word, words)?))
}

/// Returns what is wrong with the word at a key of an object.
#[tactic(auto, unfolding(crate::specs::Fields::wrong_word_at, crate::specs::Fields::wrong_at))]
pub(crate) fn explain_word_at(
    alloc: Global,
    json: &Json,
    key: Key,
    words: &[&str],
) -> Result<Option<Slip>, AllocError>
    ensures { IfOk result (TellsIfAny (wrong_word_at key (map (λ one. one.now) words.now) (view json.now))) }
{
    let Some(value) = json.get(key.as_str()) else {
        return missing(alloc, key, Wanted::Text);
    };
    let found = explain_word(alloc, value, words)?;
    below_any(alloc, found, &[PathStep::Key(key)])
}
