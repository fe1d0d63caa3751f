//! Known needs of rules that can't be read.
ghost use Rattle.std.specs.Prelude.{◌≡◌, is_some, map, IfOk};
ghost use Rattle.std.specs.List.{list_all};
ghost use Rattle.serde_json.specs.Find.{as_array};
ghost use Rattle.serde_json.specs.View.{view};
ghost use Rattle.clr_rule_text.specs.declared.formats.Format.TheVariants.{Fourth};
ghost use Rattle.clr_text_positions.specs.declared.paths.Key.TheVariants as key;
ghost use Rattle.clr_item_explanations.specs.KnownNeeds.{are_numbers, is_count, is_name, name_words, wrong_known, wrong_name};
ghost use Rattle.clr_item_explanations.specs.Tellings.{TellsIfAny, wrong_in_list};
ghost use Rattle.clr_item_explanations.specs.Values.{whole_number};

use crate::fields::{Wanted, explain_field, items_at, value_slip};
use crate::slips::Slip;
use clr_office_reading::formats::Format;
use clr_text_positions::{Key, PathStep};
use serde_json::Value as Json;
use std::alloc::{AllocError, Global};

/// Returns whether the name of a need has so many numbers in a rule of a kind.
fn is_count(kind: &str, count: usize) -> bool
    ensures { result ≡ is_count kind.now count }
{
    match kind {
        "PARTNER" | "ENDNODE" => count == 1,
        "CROSSING" => count == 2 || count == 4,
        _ => count == 2,
    }
}

/// Returns what the name of a need has in a rule of a kind.
fn name_words(kind: &str) -> &'static str
    ensures { result.now ≡ name_words kind.now }
{
    match kind {
        "PARTNER" | "ENDNODE" => "a list of the key of one row",
        "CROSSING" => "a list of the keys of two rows, or of these and a part of each",
        _ => "a list of the keys of two rows",
    }
}

fn are_whole_numbers(items: &[Json]) -> bool
    ensures { result ≡ list_all (λ one. is_some (whole_number (view one))) items.now }
{
    items.iter().all(|one| one.as_i64().is_some())
}

/// Returns whether values are as many whole numbers as the name of a need has in a rule of a kind.
fn are_numbers(kind: &str, items: &[Json]) -> bool
    ensures { result ≡ are_numbers kind.now (map view items.now) }
{
    is_count(kind, items.len()) && are_whole_numbers(items)
}

/// Returns whether a value is a list of as many whole numbers as the name of a need has in a rule of a kind.
#[tactic(auto, using(crate::proofs::NeedLemmas::is_name_by, crate::proofs::NeedLemmas::no_name))]
fn is_name(kind: &str, json: &Json) -> bool
    ensures { result ≡ is_name kind.now (as_array (view json.now)) }
{
    match json.as_array() {
        Some(list) => are_numbers(kind, list.as_slice()),
        None => false,
    }
}

/// Returns what is wrong with the name of a need in a rule of a kind.
#[tactic(auto, using(crate::proofs::TellingLemmas::right_or_wrong), unfolding(crate::specs::KnownNeeds::wrong_name))]
fn explain_name(alloc: Global, kind: &str, json: &Json) -> Result<Option<Slip>, AllocError>
    ensures { IfOk result (TellsIfAny (wrong_name kind.now (view json.now))) }
{
    if is_name(kind, json) {
        return Ok(None);
    }
    Ok(Some(value_slip(alloc, json, " isn't ", name_words(kind))?))
}

/// Returns what is wrong with the first known need of a rule of a kind that can't be read.
#[tactic(auto, using(crate::proofs::ListLemmas::items_in_turn))]
fn explain_names(alloc: Global, kind: &str, json: &Json) -> Result<Option<Slip>, AllocError>
    ensures { IfOk result (TellsIfAny (wrong_in_list key.Known (λ at name. wrong_name kind.now name) (view json.now))) }
{
    let items = items_at(json, Key::Known);
    for (at, name) in items.iter().enumerate() {
        if let Some(slip) = explain_name(alloc, kind, name)? {
            return Ok(Some(slip.below(alloc, &[PathStep::Key(Key::Known), PathStep::At(at)])?));
        }
    }
    Ok(None)
}

/// Returns what is wrong with the list of known needs of a rule of a kind, or with the first of them that can't be read.
#[tactic(auto, using(crate::proofs::TellingLemmas::one_after_another))]
fn explain_list(alloc: Global, kind: &str, json: &Json) -> Result<Option<Slip>, AllocError>
    ensures { IfOk result (TellsIfAny (wrong_known Fourth kind.now (view json.now))) }
{
    if let Some(slip) = explain_field(alloc, json, Key::Known, Wanted::OptionalList)? {
        return Ok(Some(slip));
    }
    explain_names(alloc, kind, json)
}

/// Returns what is wrong with the known needs of a rule of a kind that can't be read, or none where nothing is found. Formats 1 to 3
/// have none.
pub(crate) fn explain_known(
    alloc: Global,
    json: &Json,
    format: Format,
    kind: &str,
) -> Result<Option<Slip>, AllocError>
    ensures { IfOk result (TellsIfAny (wrong_known format kind.now (view json.now))) }
{
    match format {
        Format::First | Format::Second | Format::Third => Ok(None),
        Format::Fourth => explain_list(alloc, kind, json),
    }
}
