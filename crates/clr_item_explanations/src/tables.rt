//! Tables that can't be read.
ghost use Rattle.std.specs.Prelude.{IfOk};
ghost use Rattle.serde_json.specs.View.{view};
ghost use Rattle.clr_text_positions.specs.declared.paths.Key.TheVariants as key;
ghost use Rattle.clr_item_explanations.specs.Tables.{wrong_column, wrong_column_pair, wrong_paths, wrong_table};
ghost use Rattle.clr_item_explanations.specs.Tellings.{TellsIfAny, wrong_in_list};

use crate::fields::{
    Wanted, explain_fields, explain_value, explain_word, explain_word_at, items_at, value_slip,
};
use crate::slips::{Slip, below_any};
use clr_office_reading::formats::Format;
use clr_text_positions::{Key, PathStep};
use serde_json::Value as Json;
use std::alloc::{AllocError, Global};

const KINDS: &[&str] = &["INT", "TEXT"];

const SHAPES: &[&str] = &["NONE", "POINT", "SEGMENT", "PATH"];

/// Returns what is wrong with the name and the kind of a column.
#[tactic(auto, using(crate::proofs::TellingLemmas::one_after_another))]
fn explain_column_pair(alloc: Global, name: &Json, kind: &Json) -> Result<Option<Slip>, AllocError>
    ensures { IfOk result (TellsIfAny (wrong_column_pair (view name.now) (view kind.now))) }
{
    let of_kind = explain_word(alloc, kind, KINDS)?;
    if let Some(slip) = below_any(alloc, of_kind, &[PathStep::At(1)])? {
        return Ok(Some(slip));
    }
    let of_name = explain_value(alloc, name, Wanted::Text)?;
    below_any(alloc, of_name, &[PathStep::At(0)])
}

/// Returns what is wrong with a column, which is a name and a kind.
#[tactic(auto, using(crate::proofs::ItemLemmas::pair_or_none), unfolding(crate::specs::Tables::wrong_column))]
fn explain_column(alloc: Global, json: &Json) -> Result<Option<Slip>, AllocError>
    ensures { IfOk result (TellsIfAny (wrong_column (view json.now))) }
{
    let Some(list) = json.as_array() else {
        let found = explain_value(alloc, json, Wanted::List)?;
        return Ok(found);
    };
    let items = list.as_slice();
    if items.len() != 2 {
        let slip = value_slip(alloc, json, " is no pair of ", "a name and a kind")?;
        return Ok(Some(slip));
    }
    let found = explain_column_pair(alloc, &items[0], &items[1])?;
    Ok(found)
}

/// Returns what is wrong with the first column of a table that can't be read.
#[tactic(auto, using(crate::proofs::ListLemmas::items_in_turn))]
fn explain_columns(alloc: Global, json: &Json) -> Result<Option<Slip>, AllocError>
    ensures { IfOk result (TellsIfAny (wrong_in_list key.Columns (λ at column. wrong_column column) (view json.now))) }
{
    let items = items_at(json, Key::Columns);
    for (at, column) in items.iter().enumerate() {
        if let Some(slip) = explain_column(alloc, column)? {
            return Ok(Some(slip.below(alloc, &[PathStep::Key(Key::Columns), PathStep::At(at)])?));
        }
    }
    Ok(None)
}

/// Returns what is wrong with a table whose fields can be read: that it has paths, in format 1.
fn explain_paths(alloc: Global, format: Format) -> Result<Option<Slip>, AllocError>
    ensures { IfOk result (TellsIfAny (wrong_paths format)) }
{
    match format {
        Format::First => Ok(Some(Slip::of_words(
            alloc,
            &[PathStep::Key(Key::Shape)],
            "PATH is known from format 2 on",
        )?)),
        Format::Second | Format::Third | Format::Fourth => Ok(None),
    }
}

/// Returns what is wrong with a table that can't be read, or none where nothing is found.
#[tactic(auto, using(crate::proofs::TellingLemmas::one_after_another), unfolding(crate::specs::Tables::wrong_table))]
pub fn explain_table(alloc: Global, json: &Json, format: Format) -> Result<Option<Slip>, AllocError>
    ensures { IfOk result (TellsIfAny (wrong_table format (view json.now))) }
{
    let head = [(Key::Name, Wanted::Text), (Key::Columns, Wanted::List)];
    if let Some(slip) = explain_fields(alloc, json, &head)? {
        return Ok(Some(slip));
    }
    if let Some(slip) = explain_columns(alloc, json)? {
        return Ok(Some(slip));
    }
    if let Some(slip) = explain_word_at(alloc, json, Key::Shape, SHAPES)? {
        return Ok(Some(slip));
    }
    explain_paths(alloc, format)
}
