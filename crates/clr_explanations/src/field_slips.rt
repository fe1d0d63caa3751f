//! What is wrong where a field is missing or isn't what must stand there.
ghost use Rattle.std.specs.Prelude.{IfOk, unwrap_or};
ghost use Rattle.serde_json.specs.View.{view};
ghost use Rattle.clr_office_reading.specs.Offices.{format_of};
ghost use Rattle.clr_item_explanations.specs.Slips.{said};
ghost use Rattle.clr_item_explanations.specs.Tellings.{Tells, TellsIfAny};
ghost use Rattle.clr_explanations.specs.WrongItems.{unknown, wrong_at_spot, wrong_format, wrong_in_item, wrong_row_in, wrong_rule_in};
ghost use Rattle.clr_explanations.specs.WrongItems.{wrong_table_in, wrong_text};

use crate::inner_slips::slip_or_unknown;
use crate::items::item_at;
use crate::readings::{format_in, schema_in};
use clr_faults::FaultyItem;
use clr_item_explanations::{
    Slip, Wanted, Within, explain_fields, explain_mark, explain_row, explain_rule, explain_table,
    explain_workspace,
};
use clr_text_positions::{Key, PathStep};
use serde_json::Value as Json;
use std::alloc::{AllocError, Global};

/// Returns what is wrong with the format of a text whose number can be read.
#[tactic(auto, using(crate::proofs::FieldLemmas::known_format, crate::proofs::FieldLemmas::unknown_format))]
fn slip_of_format(alloc: Global, json: &Json) -> Result<Option<Slip>, AllocError>
    ensures { IfOk result (TellsIfAny (wrong_format (format_of (view json.now)))) }
{
    if format_in(json)?.is_some() {
        return Ok(None);
    }
    let steps = [PathStep::Key(Key::Format)];
    let slip = Slip::of_words(alloc, &steps, "the format is 1, 2, 3 or 4")?;
    Ok(Some(slip))
}

/// Returns what is wrong with the format of a text, or else with the first of its lists that isn't
/// one.
#[tactic(auto, using(clr_item_explanations::proofs::TellingLemmas::one_after_another), unfolding(crate::specs::WrongItems::wrong_text))]
fn slip_of_text(alloc: Global, json: &Json) -> Result<Option<Slip>, AllocError>
    ensures { IfOk result (TellsIfAny (wrong_text (view json.now))) }
{
    if let Some(slip) = explain_fields(alloc, json, &[(Key::Format, Wanted::WholeNumber)])? {
        return Ok(Some(slip));
    }
    if let Some(slip) = slip_of_format(alloc, json)? {
        return Ok(Some(slip));
    }
    let lists = [
        (Key::Tables, Wanted::List),
        (Key::Rules, Wanted::OptionalList),
        (Key::Live, Wanted::List),
        (Key::Workspaces, Wanted::OptionalList),
    ];
    explain_fields(alloc, json, &lists)
}

/// Returns what is wrong with the fields of a table.
#[tactic(auto, using(crate::proofs::FieldLemmas::table_read, crate::proofs::FieldLemmas::no_format))]
fn slip_of_table(alloc: Global, json: &Json, item: &Json) -> Result<Option<Slip>, AllocError>
    ensures { IfOk result (TellsIfAny (wrong_table_in (view json.now) (view item.now))) }
{
    match format_in(json)? {
        Some(format) => {
            let found = explain_table(alloc, item, format)?;
            Ok(found)
        }
        None => Ok(None),
    }
}

/// Returns what is wrong with the fields of a rule.
#[tactic(auto, using(crate::proofs::FieldLemmas::rule_read, crate::proofs::FieldLemmas::no_format_of_rule))]
fn slip_of_rule(alloc: Global, json: &Json, item: &Json) -> Result<Option<Slip>, AllocError>
    ensures { IfOk result (TellsIfAny (wrong_rule_in (view json.now) (view item.now))) }
{
    match format_in(json)? {
        Some(format) => {
            let found = explain_rule(alloc, item, format)?;
            Ok(found)
        }
        None => Ok(None),
    }
}

/// Returns what is wrong with the fields of a row or a cell.
#[tactic(auto, using(crate::proofs::FieldLemmas::row_read, crate::proofs::FieldLemmas::no_tables))]
fn slip_of_row(
    alloc: Global,
    json: &Json,
    item: &Json,
    within: Within,
) -> Result<Option<Slip>, AllocError>
    ensures { IfOk result (TellsIfAny (wrong_row_in within (view json.now) (view item.now))) }
{
    match schema_in(alloc, json)? {
        Some(schema) => {
            let found = explain_row(alloc, item, &schema, within)?;
            Ok(found)
        }
        None => Ok(None),
    }
}

/// Returns what is wrong with the fields of an item.
fn slip_of_item(
    alloc: Global,
    json: &Json,
    spot: FaultyItem,
    item: &Json,
) -> Result<Option<Slip>, AllocError>
    ensures { IfOk result (TellsIfAny (wrong_in_item spot (view json.now) (view item.now))) }
{
    match spot {
        FaultyItem::Whole => slip_of_text(alloc, json),
        FaultyItem::Table(_) => slip_of_table(alloc, json, item),
        FaultyItem::Rule(_) => slip_of_rule(alloc, json, item),
        FaultyItem::Live(_) => slip_of_row(alloc, json, item, Within::Live),
        FaultyItem::Workspace(at) => explain_workspace(alloc, json, at),
        FaultyItem::Mark(_, _) => explain_mark(alloc, item),
        FaultyItem::Base(_, _) | FaultyItem::Row(_, _) | FaultyItem::Saved(_, _, _) => {
            slip_of_row(alloc, json, item, Within::Workspace)
        }
    }
}

/// Returns what is wrong with the fields of the item at which a fault stands, or none where nothing is found.
#[tactic(auto, using(crate::proofs::FieldLemmas::item_read, crate::proofs::FieldLemmas::no_item_read))]
fn slip_at(alloc: Global, json: &Json, spot: FaultyItem) -> Result<Option<Slip>, AllocError>
    ensures { IfOk result (TellsIfAny (wrong_at_spot spot (view json.now))) }
{
    match item_at(json, spot)? {
        Some(item) => {
            let found = slip_of_item(alloc, json, spot, item)?;
            Ok(found)
        }
        None => Ok(None),
    }
}

/// Returns what is wrong with the fields of the item at which a fault stands.
pub fn field_slip(alloc: Global, json: &Json, spot: FaultyItem) -> Result<Slip, AllocError>
    ensures { IfOk result (λ slip. Tells (unwrap_or (wrong_at_spot spot (view json.now)) unknown) (said slip)) }
{
    let found = slip_at(alloc, json, spot)?;
    let slip = slip_or_unknown(alloc, found)?;
    Ok(slip)
}
