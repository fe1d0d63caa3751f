//! The broken needs of LIVE as features of a map.

ghost use Rattle.std.specs.Prelude.{◌≡◌, ◌++◌, map, string_bytes, IfOk, OnOk};
ghost use Rattle.std.specs.List.{flat_map};
ghost use Rattle.std.specs.Option.{option_copied};
ghost use Rattle.clr_geojson.specs.Collections.{collection_text, line_with_comma};
ghost use Rattle.clr_desk_error_lists.specs.ErrorFeatures.{AreErrorFeatures, IsErrorFeaturesAnswer};
ghost use Rattle.clr_desk_error_lists.specs.ErrorFeatures.{asked_words, error_feature, error_properties, point_at, second_key, second_table};
ghost use Rattle.clr_desk_error_lists.specs.ErrorFeatures.{first_properties, second_properties, told_properties};
ghost use Rattle.clr_office_reading.specs.Offices.{known_in};
ghost use Rattle.clr_office_texts.specs.Drafts.{draft_in};
ghost use Rattle.clr_desk_errors.specs.Accepting.{IsPrintoutOfDraft};
ghost use Rattle.clr_desk_prints.specs.Printing.{IsMadePrintout, printed};

use clr_desk_errors::open_known;
use clr_desk_prints::{Print, RunFault, print_of_no_system, system_of};
use clr_engine::{Broken, Office};
use clr_geojson::{Feature, Properties, Property, add_feature, begin_collection, end_collection};
use clr_listed_errors::{ListedError, is_any_unknown, list_errors};
use clr_phrases::rule_sentence;
use clr_rows::{CellId, Place, Schema, Shape, Words};
use clr_rules::Rule;
use std::alloc::{AllocError, Global};

/// Returns a place as a point, or no shape.
fn point_at(place: Option<Place>) -> Shape
    ensures { result ≡ point_at place }
{
    match place {
        Some(place) => Shape::At(place),
        None => Shape::Bare,
    }
}

/// Returns a rule as a sentence, and no words where there is none.
fn asked_words(alloc: Global, schema: &Schema, rule: Option<&Rule>) -> Result<String, AllocError>
    ensures { IfOk result (λ text. string_bytes text ≡ asked_words schema.now (option_copied rule.entry)) }
{
    match rule {
        Some(rule) => rule_sentence(alloc, schema, rule),
        None => Ok(String::new(alloc)),
    }
}

/// Returns the name of the table of a second cell, and no words where there is none.
fn second_table(schema: &Schema, cell: Option<CellId>) -> &str
    ensures { result.now ≡ second_table schema.now cell }
{
    match cell {
        Some(cell) => schema.name_of_table(cell.table),
        None => "",
    }
}

/// Returns the key of a second cell, and 0 where there is none.
fn second_key(cell: Option<CellId>) -> i64
    ensures { result ≡ second_key cell }
{
    match cell {
        Some(cell) => cell.key,
        None => 0,
    }
}

/// Returns the properties that tell the rule of a need, its first row and the part of this.
#[tactic(auto, unfolding(crate::specs::ErrorFeatures::first_properties))]
fn first_properties(
    alloc: Global,
    schema: &Schema,
    need: &Broken,
) -> Result<Vec<Property>, AllocError>
    ensures { IfOk result (λ list. list.items ≡ first_properties schema.now need.now) }
{
    let table = schema.name_of_table(need.first.table);
    let mut list = Vec::new(alloc);
    list.push(Property::number(alloc, "rule", i64::from(need.rule))?)?;
    list.push(Property::text(alloc, "table", table)?)?;
    list.push(Property::number(alloc, "key", need.first.key)?)?;
    list.push(Property::number(alloc, "part", i64::from(need.first_part))?)?;
    Ok(list)
}

/// Returns the properties that tell the second row of a need and the part of this.
#[tactic(auto, unfolding(crate::specs::ErrorFeatures::second_properties))]
fn second_properties(
    alloc: Global,
    schema: &Schema,
    need: &Broken,
) -> Result<Vec<Property>, AllocError>
    ensures { IfOk result (λ list. list.items ≡ second_properties schema.now need.now) }
{
    let table = second_table(schema, need.second);
    let mut list = Vec::new(alloc);
    list.push(Property::text(alloc, "table2", table)?)?;
    list.push(Property::number(alloc, "key2", second_key(need.second))?)?;
    list.push(Property::number(alloc, "part2", i64::from(need.second_part))?)?;
    Ok(list)
}

/// Returns the properties that tell whether an error is known, a few words, and what its rule asks for.
#[tactic(auto, unfolding(crate::specs::ErrorFeatures::told_properties))]
fn told_properties(
    alloc: Global,
    asks: &str,
    error: &ListedError,
) -> Result<Vec<Property>, AllocError>
    ensures { IfOk result (λ list. list.items ≡ told_properties asks.now error.now) }
{
    let mut list = Vec::new(alloc);
    list.push(Property::flag(alloc, "known", error.is_known)?)?;
    list.push(Property::text(alloc, "says", error.says.as_str())?)?;
    list.push(Property::text(alloc, "asks", asks)?)?;
    Ok(list)
}

/// Returns the properties of an error under a rule that asks for this.
fn error_properties(
    alloc: Global,
    schema: &Schema,
    asks: &str,
    error: &ListedError,
) -> Result<Vec<Property>, AllocError>
    ensures { IfOk result (λ list. list.items ≡ error_properties schema.now asks.now error.now) }
{
    let mut list = first_properties(alloc, schema, &error.need)?;
    let mut second = second_properties(alloc, schema, &error.need)?;
    list.append(&mut second)?;
    let mut told = told_properties(alloc, asks, error)?;
    list.append(&mut told)?;
    Ok(list)
}

/// Returns the feature of an error: a point where it is, or no shape.
fn error_feature(alloc: Global, office: &Office, error: &ListedError) -> Result<Feature, AllocError>
    ensures { IfOk result (λ feature. feature ≡ error_feature office.now error.now) }
{
    let schema = office.schema();
    let rule = office.book().rules().get(error.need.rule as usize);
    let asks = asked_words(alloc, schema, rule)?;
    let list = error_properties(alloc, schema, asks.as_str(), error)?;
    Ok(Feature {
        properties: Properties::new(list),
        shape: point_at(error.place),
    })
}

/// Adds the features of errors to a collection that was begun.
fn add_errors(
    alloc: Global,
    text: &mut Vec<u8>,
    office: &Office,
    errors: &[ListedError],
) -> Result<(), AllocError>
    ensures { OnOk result (text.new.items ≡ text.old.items ++ flat_map line_with_comma (map (error_feature office.now) errors.now)) }
{
    for error in errors {
        let feature = error_feature(alloc, office, error)?;
        add_feature(text, &feature)?;
    }
    Ok(())
}

/// Returns the features of errors, in a system of coordinates if one is given.
fn features_text(
    alloc: Global,
    office: &Office,
    errors: &[ListedError],
    system: Option<u32>,
) -> Result<Vec<u8>, AllocError>
    ensures { IfOk result (λ text. text.items ≡ collection_text system (map (error_feature office.now) errors.now)) }
{
    let mut text = begin_collection(alloc, system)?;
    add_errors(alloc, &mut text, office, errors)?;
    let whole = end_collection(text)?;
    Ok(whole)
}

/// Returns what is printed of the errors of LIVE as features, beside needs that are known.
fn features_print(
    alloc: Global,
    office: &Office,
    known: &[Broken],
    system: Option<u32>,
) -> Result<Print, AllocError>
    ensures { IfOk result (λ p. AreErrorFeatures system known.now office.now (printed p)) }
{
    let errors = list_errors(alloc, office, known)?;
    let text = features_text(alloc, office, errors.as_slice(), system)?;
    let is_refused = is_any_unknown(errors.as_slice());
    Ok(Print::new(text, Vec::new(alloc), is_refused, false))
}

/// Returns what is printed of the errors of LIVE of an office text as features, in a system of coordinates if there is one.
fn answer_in(alloc: Global, office: &[u8], system: Option<u32>) -> Result<Print, RunFault>
    ensures { IsMadePrintout (IsPrintoutOfDraft (AreErrorFeatures system (known_in office.now)) (draft_in office.now)) result }
{
    let opened = open_known(alloc, office)?;
    Ok(features_print(alloc, &opened.office, opened.known.as_slice(), system)?)
}

/// Returns the broken needs of LIVE as GeoJSON in metres, a point for each, or no shape where its rows have none: its rule, its rows and their
/// parts, whether it is known, a few words, and what the rule asks for. It counts as a refusal where one isn't known. The text of a system of
/// coordinates is `EPSG:` and its number in that register; for any other, a note that it names no system is all that is printed, with status
/// 2, and the office text isn't read. Fails with `BadOffice` where the text is no office, and with `OutOfMemory` for want of memory, which may
/// come in place of any other answer.
pub fn answer_error_features(
    alloc: Global,
    office: &[u8],
    system: Option<&Words>,
) -> Result<Print, RunFault>
    ensures { IsMadePrintout (IsErrorFeaturesAnswer (known_in office.now) (option_copied system.entry) (draft_in office.now)) result }
{
    let Some(text) = system else {
        return answer_in(alloc, office, None);
    };
    match system_of(text.as_str()) {
        Some(code) => answer_in(alloc, office, Some(code)),
        None => Ok(print_of_no_system(alloc, text.as_str())?),
    }
}
