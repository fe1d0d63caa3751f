//! Rules that can't be read.
ghost use Rattle.std.specs.Prelude.{◌≡◌, IfOk};
ghost use Rattle.serde_json.specs.View.{view};
ghost use Rattle.clr_text_positions.specs.declared.paths.Key.TheVariants as key;
ghost use Rattle.clr_item_explanations.specs.declared.fields.Wanted.TheVariants as wanted;
ghost use Rattle.clr_item_explanations.specs.Fields.{wrong_value};
ghost use Rattle.clr_item_explanations.specs.Rules.{rule_fields, wrong_literal, wrong_literal_pair, wrong_names_at, wrong_rule, wrong_rule_field};
ghost use Rattle.clr_item_explanations.specs.Rules.{wrong_rule_fields};
ghost use Rattle.clr_item_explanations.specs.Rules.{wrong_side, wrong_side_at};
ghost use Rattle.clr_item_explanations.specs.Tellings.{TellsIfAny, first_wrong, wrong_in_list};
ghost use Rattle.clr_item_explanations.specs.Values.{text_at};

use crate::fields::{
    Wanted, explain_field, explain_fields, explain_value, explain_word_at, items_at, missing,
    text_at, value_slip,
};
use crate::known_needs::explain_known;
use crate::slips::{Slip, below_any};
use clr_office_reading::formats::Format;
use clr_text_positions::{Key, PathStep};
use serde_json::Value as Json;
use std::alloc::{AllocError, Global};

const KINDS: &[&str] = &["UNIQUE", "PARTNER", "ENDNODE", "CROSSING", "NEAR"];

const TIPS: &[&str] = &["FIRST", "SECOND"];

/// A field of a rule, in the order in which it is read.
#[derive(Clone, Copy)]
enum RuleField {
    /// A side.
    Side(Key),
    /// A list of columns.
    Columns(Key),
    Tip,
    Distance,
}

/// Returns the fields of a rule of its kind.
fn rule_fields(json: &Json) -> &'static [RuleField]
    ensures { result.now ≡ rule_fields (text_at key.Kind (view json.now)) }
{
    match text_at(json, Key::Kind) {
        "UNIQUE" => &[
            RuleField::Side(Key::Subject),
            RuleField::Columns(Key::Columns),
        ],
        "PARTNER" => &[
            RuleField::Side(Key::Subject),
            RuleField::Columns(Key::Columns),
            RuleField::Side(Key::Server),
            RuleField::Columns(Key::ServerColumns),
        ],
        "ENDNODE" => &[
            RuleField::Side(Key::Subject),
            RuleField::Tip,
            RuleField::Side(Key::Server),
        ],
        "CROSSING" => &[
            RuleField::Side(Key::A),
            RuleField::Side(Key::B),
            RuleField::Side(Key::Server),
        ],
        "NEAR" => &[
            RuleField::Side(Key::A),
            RuleField::Side(Key::B),
            RuleField::Distance,
        ],
        _ => &[],
    }
}

/// Returns what is wrong with the name and the value of a literal.
#[tactic(auto, using(crate::proofs::TellingLemmas::one_after_another))]
fn explain_literal_pair(
    alloc: Global,
    name: &Json,
    value: &Json,
) -> Result<Option<Slip>, AllocError>
    ensures { IfOk result (TellsIfAny (wrong_literal_pair (view name.now) (view value.now))) }
{
    let of_name = explain_value(alloc, name, Wanted::Text)?;
    if let Some(slip) = below_any(alloc, of_name, &[PathStep::At(0)])? {
        return Ok(Some(slip));
    }
    let of_value = explain_value(alloc, value, Wanted::Value)?;
    below_any(alloc, of_value, &[PathStep::At(1)])
}

/// Returns what is wrong with a literal, which is the name of a column and a value.
#[tactic(auto, using(crate::proofs::ItemLemmas::pair_or_none), unfolding(crate::specs::Rules::wrong_literal))]
fn explain_literal(alloc: Global, json: &Json) -> Result<Option<Slip>, AllocError>
    ensures { IfOk result (TellsIfAny (wrong_literal (view json.now))) }
{
    let Some(list) = json.as_array() else {
        let found = explain_value(alloc, json, Wanted::List)?;
        return Ok(found);
    };
    let items = list.as_slice();
    if items.len() != 2 {
        let slip = value_slip(alloc, json, " is no pair of ", "a column and a value")?;
        return Ok(Some(slip));
    }
    let found = explain_literal_pair(alloc, &items[0], &items[1])?;
    Ok(found)
}

/// Returns what is wrong with the first literal of a side that can't be read.
#[tactic(auto, using(crate::proofs::ListLemmas::items_in_turn))]
fn explain_literals(alloc: Global, json: &Json) -> Result<Option<Slip>, AllocError>
    ensures { IfOk result (TellsIfAny (wrong_in_list key.Where (λ at literal. wrong_literal literal) (view json.now))) }
{
    let items = items_at(json, Key::Where);
    for (at, literal) in items.iter().enumerate() {
        if let Some(slip) = explain_literal(alloc, literal)? {
            return Ok(Some(slip.below(alloc, &[PathStep::Key(Key::Where), PathStep::At(at)])?));
        }
    }
    Ok(None)
}

/// Returns what is wrong with a side that can't be read.
#[tactic(auto, using(crate::proofs::TellingLemmas::one_after_another), unfolding(crate::specs::Rules::wrong_side))]
fn explain_side(alloc: Global, json: &Json) -> Result<Option<Slip>, AllocError>
    ensures { IfOk result (TellsIfAny (wrong_side (view json.now))) }
{
    let head = [
        (Key::Table, Wanted::Text),
        (Key::Where, Wanted::OptionalList),
    ];
    if let Some(slip) = explain_fields(alloc, json, &head)? {
        return Ok(Some(slip));
    }
    explain_literals(alloc, json)
}

/// Returns what is wrong with the side at a key of a rule.
#[tactic(auto, unfolding(crate::specs::Rules::wrong_side_at, crate::specs::Fields::wrong_at))]
fn explain_side_at(alloc: Global, json: &Json, key: Key) -> Result<Option<Slip>, AllocError>
    ensures { IfOk result (TellsIfAny (wrong_side_at key (view json.now))) }
{
    let Some(side) = json.get(key.as_str()) else {
        return missing(alloc, key, Wanted::Object);
    };
    let found = explain_side(alloc, side)?;
    below_any(alloc, found, &[PathStep::Key(key)])
}

/// Returns what is wrong with the first item of a list that is no text.
#[tactic(auto, using(crate::proofs::ListLemmas::items_in_turn))]
fn explain_names(alloc: Global, json: &Json, key: Key) -> Result<Option<Slip>, AllocError>
    ensures { IfOk result (TellsIfAny (wrong_in_list key (λ at name. wrong_value wanted.Text name) (view json.now))) }
{
    let items = items_at(json, key);
    for (at, name) in items.iter().enumerate() {
        if let Some(slip) = explain_value(alloc, name, Wanted::Text)? {
            return Ok(Some(slip.below(alloc, &[PathStep::Key(key), PathStep::At(at)])?));
        }
    }
    Ok(None)
}

/// Returns what is wrong with a list of columns that can't be read.
#[tactic(auto, using(crate::proofs::TellingLemmas::one_after_another), unfolding(crate::specs::Rules::wrong_names_at))]
fn explain_columns(alloc: Global, json: &Json, key: Key) -> Result<Option<Slip>, AllocError>
    ensures { IfOk result (TellsIfAny (wrong_names_at key (view json.now))) }
{
    if let Some(slip) = explain_field(alloc, json, key, Wanted::List)? {
        return Ok(Some(slip));
    }
    explain_names(alloc, json, key)
}

/// Returns what is wrong with a field of a rule that can't be read.
fn explain_rule_field(
    alloc: Global,
    json: &Json,
    field: RuleField,
) -> Result<Option<Slip>, AllocError>
    ensures { IfOk result (TellsIfAny (wrong_rule_field field (view json.now))) }
{
    match field {
        RuleField::Side(key) => explain_side_at(alloc, json, key),
        RuleField::Columns(key) => explain_columns(alloc, json, key),
        RuleField::Tip => explain_word_at(alloc, json, Key::Tip, TIPS),
        RuleField::Distance => explain_field(alloc, json, Key::D, Wanted::WholeNumber),
    }
}

/// Returns what is wrong with the first field of a rule of its kind that can't be read.
fn explain_rule_fields(alloc: Global, json: &Json) -> Result<Option<Slip>, AllocError>
    ensures { IfOk result (TellsIfAny (first_wrong (λ one. wrong_rule_field one (view json.now)) (rule_fields (text_at key.Kind (view json.now))))) }
{
    let fields = rule_fields(json);
    for field in fields {
        if let Some(slip) = explain_rule_field(alloc, json, *field)? {
            return Ok(Some(slip));
        }
    }
    Ok(None)
}

/// Returns what is wrong with the first field of a rule of its kind that can't be read, or else with its known needs.
#[tactic(auto, using(crate::proofs::TellingLemmas::one_after_another))]
fn explain_fields_and_needs(
    alloc: Global,
    json: &Json,
    format: Format,
) -> Result<Option<Slip>, AllocError>
    ensures { IfOk result (TellsIfAny (wrong_rule_fields format (text_at key.Kind (view json.now)) (view json.now))) }
{
    if let Some(slip) = explain_rule_fields(alloc, json)? {
        return Ok(Some(slip));
    }
    explain_known(alloc, json, format, text_at(json, Key::Kind))
}

/// Returns what is wrong with a rule of a text of a format that can't be read, or none where nothing is found.
#[tactic(auto, using(crate::proofs::TellingLemmas::one_after_another), unfolding(crate::specs::Rules::wrong_rule))]
pub fn explain_rule(alloc: Global, json: &Json, format: Format) -> Result<Option<Slip>, AllocError>
    ensures { IfOk result (TellsIfAny (wrong_rule format (view json.now))) }
{
    if let Some(slip) = explain_word_at(alloc, json, Key::Kind, KINDS)? {
        return Ok(Some(slip));
    }
    explain_fields_and_needs(alloc, json, format)
}
