//! Cells that stand twice in a list.
ghost use Rattle.std.specs.Prelude.{◌≡◌, ◌≤◌, Some, IfOk, MatchOption, Decides, length, option_map, string_bytes};
ghost use Rattle.serde_json.specs.View.{view};
ghost use Rattle.clr_item_explanations.specs.Slips.{said};
ghost use Rattle.clr_explanations.specs.Items.{place_in_list};
ghost use Rattle.clr_explanations.specs.Places.{steps_to};
ghost use Rattle.clr_explanations.specs.RepeatedCells.{IsAloneWithCell, IsFirstOf, IsFirstWithCell, IsPlaceInWords, NoneBefore, TellsFirst};
ghost use Rattle.clr_explanations.specs.RepeatedCells.{TellsRepeatedCell, cell_at, place_words_at};

use crate::items::{item_at, item_beside, place_in_list};
use crate::places::{cell_in, path_words};
use crate::spots::spot_steps;
use clr_faults::FaultyItem;
use clr_item_explanations::Slip;
use clr_text_positions::{place_of, value_at};
use serde_json::Value as Json;
use std::alloc::{AllocError, Global};

/// Returns the cell that an item of a text has, if it has one.
fn cell_at(json: &Json, spot: FaultyItem) -> Result<Option<(&str, i64)>, AllocError>
    ensures { IfOk result (λ found. option_map (λ cell. (cell.0.now, cell.1)) found ≡ cell_at spot (view json.now)) }
{
    match item_at(json, spot)? {
        Some(item) => Ok(cell_in(item)),
        None => Ok(None),
    }
}

/// Returns whether an item of a text has a cell.
#[tactic(auto, using(crate::proofs::RepeatedLemmas::same_cell, crate::proofs::RepeatedLemmas::other_cell))]
fn has_cell(json: &Json, spot: FaultyItem, table: &str, key: i64) -> Result<bool, AllocError>
    ensures { IfOk result (λ has. Decides has (cell_at spot (view json.now) ≡ Some (table.now, key))) }
{
    match cell_at(json, spot)? {
        Some((other, number)) => Ok(other == table && number == key),
        None => Ok(false),
    }
}

/// Returns the place of the first item with a cell before an item in its list, or none.
#[tactic(auto, using(crate::proofs::RepeatedLemmas::found_first))]
fn first_with_cell(
    json: &Json,
    spot: FaultyItem,
    table: &str,
    key: i64,
) -> Result<Option<usize>, AllocError>
    ensures { IfOk result (λ found. MatchOption found (NoneBefore (view json.now) spot (table.now, key) (place_in_list spot))
        (IsFirstOf (view json.now) spot (table.now, key))) }
{
    for place in 0..place_in_list(spot) {
        if has_cell(json, item_beside(spot, place), table, key)? {
            return Ok(Some(place));
        }
    }
    Ok(None)
}

/// Returns the place of the first item before an item in its list that has the same cell, or none.
#[tactic(auto, using(crate::proofs::RepeatedLemmas::first_told, crate::proofs::RepeatedLemmas::no_cell_told))]
fn first_beside(json: &Json, spot: FaultyItem) -> Result<Option<usize>, AllocError>
    ensures { IfOk result (λ found. MatchOption found (IsAloneWithCell (view json.now) spot) (IsFirstWithCell (view json.now) spot)) }
{
    match cell_at(json, spot)? {
        Some((table, key)) => first_with_cell(json, spot, table, key),
        None => Ok(None),
    }
}

/// Returns a path behind the line and the column of a byte.
fn place_words_at(
    alloc: Global,
    text: &[u8],
    offset: usize,
    path: &str,
) -> Result<String, AllocError>
    requires { offset ≤ length text.now }
    ensures { IfOk result (λ words. string_bytes words ≡ place_words_at text.now offset path.now) }
{
    let place = place_of(text, offset);
    let mut words = String::from_str(alloc, "line ")?;
    let line = place.line;
    write!(words, "{line}")?;
    words.push_str(", column ")?;
    let column = place.column;
    write!(words, "{column}")?;
    words.push_str(", ")?;
    words.push_str(path)?;
    Ok(words)
}

/// Returns the line, the column and the path of an item, and the path alone where no byte is found for it.
#[tactic(auto, using(crate::proofs::RepeatedLemmas::place_found, crate::proofs::RepeatedLemmas::path_alone))]
fn place_in_words(alloc: Global, text: &[u8], spot: FaultyItem) -> Result<String, AllocError>
    ensures { IfOk result (λ words. IsPlaceInWords text.now (steps_to spot) (string_bytes words)) }
{
    let steps = spot_steps(alloc, spot)?;
    let path = path_words(alloc, steps.as_slice())?;
    match value_at(text, steps.as_slice()) {
        Some(offset) => place_words_at(alloc, text, offset, path.as_str()),
        None => Ok(path),
    }
}

/// Returns the slip that the cell of an item stands twice in its list, and where the first item with it is.
#[tactic(auto, using(crate::proofs::RepeatedLemmas::first_in_words))]
fn slip_with_first(alloc: Global, text: &[u8], first: FaultyItem) -> Result<Slip, AllocError>
    ensures { IfOk result (λ slip. TellsFirst text.now first (said slip)) }
{
    let place = place_in_words(alloc, text, first)?;
    let sentence = format!(in alloc; "the cell stands twice in its list; first at {place}")?;
    Slip::new(alloc, &[], sentence)
}

/// Returns the slip that the cell of an item stands earlier in its list, with the place where the first item with it is.
#[tactic(auto, using(crate::proofs::RepeatedLemmas::with_first, crate::proofs::RepeatedLemmas::without_first))]
pub fn repeated_slip(
    alloc: Global,
    text: &[u8],
    json: &Json,
    spot: FaultyItem,
) -> Result<Slip, AllocError>
    ensures { IfOk result (λ slip. TellsRepeatedCell text.now (view json.now) spot (said slip)) }
{
    match first_beside(json, spot)? {
        Some(first) => {
            let slip = slip_with_first(alloc, text, item_beside(spot, first))?;
            Ok(slip)
        }
        None => {
            let slip = Slip::of_words(alloc, &[], "the cell stands twice in its list")?;
            Ok(slip)
        }
    }
}
