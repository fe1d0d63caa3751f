//! Rows and cells that can't be read: a field is missing, or isn't what must stand there.
ghost use Rattle.std.specs.Prelude.{◌≡◌, ◌++◌, codes, decimal, string_bytes, IfOk};
ghost use Rattle.serde_json.specs.View.{view};
ghost use Rattle.clr_text_positions.specs.declared.paths.Key.TheVariants as key;
ghost use Rattle.clr_item_explanations.specs.declared.fields.Wanted.TheVariants as wanted;
ghost use Rattle.clr_item_explanations.specs.Fields.{wrong_coordinate, wrong_value};
ghost use Rattle.clr_item_explanations.specs.Rows.{coordinates_text, form_in, is_gone, makes_places, wrong_content, wrong_coordinate_count, wrong_if_gone};
ghost use Rattle.clr_item_explanations.specs.Rows.{wrong_row, wrong_unless_gone};
ghost use Rattle.clr_item_explanations.specs.Tellings.{TellsIfAny, wrong_in_list};

use crate::fields::{
    Wanted, count_at, explain_coordinate, explain_fields, explain_value, items_at, text_at,
};
use crate::slips::Slip;
use clr_hints::table_of;
use clr_rows::{Form, Schema};
use clr_text_positions::{Key, PathStep};
use serde_json::Value as Json;
use std::alloc::{AllocError, Global};

/// Where a cell stands: a row stands at each cell of LIVE, and may be gone elsewhere.
#[derive(Clone, Copy, Debug, PartialEq, Eq)]
pub enum Within {
    Live,
    Workspace,
}

/// Returns whether a cell says that no row stands there.
#[tactic(auto, unfolding(crate::specs::Rows::is_gone))]
fn is_gone(json: &Json) -> bool
    ensures { result ≡ is_gone (view json.now) }
{
    match json.get("gone") {
        Some(flag) => flag.as_bool() == Some(true),
        None => false,
    }
}

/// Returns the form of the rows of a cell's table, where it is known.
#[tactic(auto, unfolding(crate::specs::Rows::form_in))]
fn form_at(schema: &Schema, json: &Json) -> Option<Form>
    ensures { result ≡ form_in schema.now (view json.now) }
{
    match table_of(schema, text_at(json, Key::T)) {
        Some(table) => Some(table.shape),
        None => None,
    }
}

/// Returns what is wrong with the first value of a row that is neither a text nor a whole number.
#[tactic(auto, using(crate::proofs::ListLemmas::items_in_turn))]
fn explain_values(alloc: Global, json: &Json) -> Result<Option<Slip>, AllocError>
    ensures { IfOk result (TellsIfAny (wrong_in_list key.V (λ at value. wrong_value wanted.Value value) (view json.now))) }
{
    let items = items_at(json, Key::V);
    for (at, value) in items.iter().enumerate() {
        if let Some(slip) = explain_value(alloc, value, Wanted::Value)? {
            return Ok(Some(slip.below(alloc, &[PathStep::Key(Key::V), PathStep::At(at)])?));
        }
    }
    Ok(None)
}

/// Returns what is wrong with the first coordinate of a row that is no whole number.
#[tactic(auto, using(crate::proofs::ListLemmas::items_in_turn))]
fn explain_coordinates(alloc: Global, json: &Json) -> Result<Option<Slip>, AllocError>
    ensures { IfOk result (TellsIfAny (wrong_in_list key.S (λ at value. wrong_coordinate value) (view json.now))) }
{
    let items = items_at(json, Key::S);
    for (at, value) in items.iter().enumerate() {
        if let Some(slip) = explain_coordinate(alloc, value)? {
            return Ok(Some(slip.below(alloc, &[PathStep::Key(Key::S), PathStep::At(at)])?));
        }
    }
    Ok(None)
}

/// Returns how many coordinates a row of a form has.
pub fn coordinates_of(form: Option<Form>) -> &'static str
    ensures { result.now ≡ coordinates_text form }
{
    match form {
        Some(Form::Bare) => "a row of shape NONE has none",
        Some(Form::Point) => "a POINT has 2, x and y",
        Some(Form::Segment) => "a SEGMENT has 4, x and y of each end",
        Some(Form::Path) => "a PATH has 2 for each vertex",
        None => "a row has 0, 2 or 4",
    }
}

/// Returns whether so many coordinates make places, and no more than two of them but in a path.
fn makes_places(form: Option<Form>, count: usize) -> bool
    ensures { result ≡ makes_places form count }
{
    count % 2 == 0 && (form == Some(Form::Path) || count <= 4)
}

/// Returns that there are so many coordinates, and how many a row of a form has.
fn count_words(alloc: Global, count: usize, form: Option<Form>) -> Result<String, AllocError>
    ensures { IfOk result (λ text. string_bytes text ≡ decimal count ++ codes " coordinates; " ++ coordinates_text form) }
{
    let mut text = String::new(alloc);
    write!(text, "{count}")?;
    text.push_str(" coordinates; ")?;
    text.push_str(coordinates_of(form))?;
    Ok(text)
}

/// Returns what is wrong with the count of coordinates, which is none that a row of any form has.
#[tactic(auto, using(crate::proofs::TellingLemmas::right_if, crate::proofs::TellingLemmas::plain_else), unfolding(crate::specs::Rows::wrong_coordinate_count))]
fn explain_count(alloc: Global, json: &Json, form: Option<Form>) -> Result<Option<Slip>, AllocError>
    ensures { IfOk result (TellsIfAny (wrong_coordinate_count form (view json.now))) }
{
    let count = count_at(json, Key::S);
    if makes_places(form, count) {
        return Ok(None);
    }
    let sentence = count_words(alloc, count, form)?;
    Ok(Some(Slip::new(alloc, &[PathStep::Key(Key::S)], sentence)?))
}

/// Returns what is wrong with the values and the shape of a row.
#[tactic(auto, using(crate::proofs::TellingLemmas::one_after_another), unfolding(crate::specs::Rows::wrong_content))]
fn explain_content(alloc: Global, json: &Json, schema: &Schema) -> Result<Option<Slip>, AllocError>
    ensures { IfOk result (TellsIfAny (wrong_content schema.now (view json.now))) }
{
    if let Some(slip) = explain_fields(alloc, json, &[(Key::V, Wanted::List)])? {
        return Ok(Some(slip));
    }
    if let Some(slip) = explain_values(alloc, json)? {
        return Ok(Some(slip));
    }
    if let Some(slip) = explain_fields(alloc, json, &[(Key::S, Wanted::List)])? {
        return Ok(Some(slip));
    }
    if let Some(slip) = explain_coordinates(alloc, json)? {
        return Ok(Some(slip));
    }
    explain_count(alloc, json, form_at(schema, json))
}

/// Returns what is wrong with a cell that is gone: nothing, but in LIVE.
fn explain_gone(alloc: Global, within: Within) -> Result<Option<Slip>, AllocError>
    ensures { IfOk result (TellsIfAny (wrong_if_gone within)) }
{
    match within {
        Within::Workspace => Ok(None),
        Within::Live => Ok(Some(Slip::of_words(
            alloc,
            &[PathStep::Key(Key::Gone)],
            "a row of LIVE can't be gone; leave the item out",
        )?)),
    }
}

/// Returns what is wrong with a cell whose table, key and flag can be read.
fn explain_unless_gone(
    alloc: Global,
    json: &Json,
    schema: &Schema,
    within: Within,
) -> Result<Option<Slip>, AllocError>
    ensures { IfOk result (TellsIfAny (wrong_unless_gone (is_gone (view json.now)) within schema.now (view json.now))) }
{
    if is_gone(json) {
        explain_gone(alloc, within)
    } else {
        explain_content(alloc, json, schema)
    }
}

/// Returns what is wrong with the fields of a row or of a cell that can't be read, or none where nothing is found.
#[tactic(auto, using(crate::proofs::TellingLemmas::one_after_another), unfolding(crate::specs::Rows::wrong_row))]
pub fn explain_row(
    alloc: Global,
    json: &Json,
    schema: &Schema,
    within: Within,
) -> Result<Option<Slip>, AllocError>
    ensures { IfOk result (TellsIfAny (wrong_row schema.now within (view json.now))) }
{
    let head = [
        (Key::T, Wanted::Text),
        (Key::K, Wanted::WholeNumber),
        (Key::Gone, Wanted::OptionalFlag),
    ];
    if let Some(slip) = explain_fields(alloc, json, &head)? {
        return Ok(Some(slip));
    }
    explain_unless_gone(alloc, json, schema, within)
}
