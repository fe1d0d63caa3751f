//! Where a fault of an office text is, and what is said of that place.
ghost use Rattle.std.specs.Prelude.{◌≡◌, ◌≤◌, ◌++◌, [], length, string_bytes, IfOk, OnOk, option_map};
ghost use Rattle.std.specs.List.{flat_map};
ghost use Rattle.std.specs.Option.{option_map_or};
ghost use Rattle.serde_json.specs.View.{view};
ghost use Rattle.clr_explanations.specs.Places.{cell_in, cell_text, first_step_text, path_and_cell, path_text, place_text, step_text};
ghost use Rattle.clr_explanations.specs.Places.{steps_within, value_at_step};

use crate::items::item_at;
use crate::spots::spot_steps;
use clr_faults::FaultyItem;
use clr_item_explanations::Slip;
use clr_text_positions::{PathStep, Remark, value_at};
use serde_json::Value as Json;
use std::alloc::{AllocError, Global};

/// Returns the value that a step leads to, or none.
fn value_at_step(json: &Json, step: PathStep) -> Option<&Json>
    ensures { option_map (λ v. view v.now) result ≡ value_at_step step (view json.now) }
{
    match step {
        PathStep::Key(key) => json.get(key.as_str()),
        PathStep::At(at) => json.get(at),
    }
}

/// Returns the steps from an item up to the first that leads to no value.
fn steps_within(alloc: Global, item: &Json, steps: &[PathStep]) -> Result<Vec<PathStep>, AllocError>
    ensures { IfOk result (λ within. within.items ≡ steps_within steps.now (view item.now)) }
{
    let mut within = Vec::new(alloc);
    let mut value = item;
    for step in steps {
        match value_at_step(value, *step) {
            Some(inner) => value = inner,
            None => return Ok(within),
        }
        within.push(*step)?;
    }
    Ok(within)
}

/// Adds steps, as `.v` and `[1]`.
fn add_steps(path: &mut String, steps: &[PathStep]) -> Result<(), AllocError>
    ensures { OnOk result (string_bytes path.new ≡ string_bytes path.old ++ flat_map step_text steps.now) }
{
    for step in steps {
        add_step(path, *step)?;
    }
    Ok(())
}

fn add_step(path: &mut String, step: PathStep) -> Result<(), AllocError>
    ensures { OnOk result (string_bytes path.new ≡ string_bytes path.old ++ step_text step) }
{
    match step {
        PathStep::Key(key) => {
            path.push_str(".")?;
            path.push_str(key.as_str())
        }
        PathStep::At(at) => {
            path.push_str("[")?;
            write!(path, "{at}")?;
            path.push_str("]")
        }
    }
}

/// Adds the first step of a path, whose key has no point before it.
fn add_first_step(path: &mut String, step: PathStep) -> Result<(), AllocError>
    ensures { OnOk result (string_bytes path.new ≡ string_bytes path.old ++ first_step_text step) }
{
    match step {
        PathStep::Key(key) => path.push_str(key.as_str()),
        PathStep::At(_) => add_step(path, step),
    }
}

/// Adds a path of these steps.
fn add_path(path: &mut String, first: PathStep, behind: &[PathStep]) -> Result<(), AllocError>
    ensures { OnOk result (string_bytes path.new ≡ string_bytes path.old ++ (first_step_text first ++ flat_map step_text behind.now)) }
{
    add_first_step(path, first)?;
    add_steps(path, behind)
}

/// Returns a path, as `workspaces[0].rows[3]`.
#[tactic(auto, unfolding(crate::specs::Places::path_text))]
pub(crate) fn path_words(alloc: Global, steps: &[PathStep]) -> Result<String, AllocError>
    ensures { IfOk result (λ path. string_bytes path ≡ path_text steps.now) }
{
    match steps {
        [] => Ok(String::new(alloc)),
        [first, behind @ ..] => {
            let mut path = String::new(alloc);
            add_path(&mut path, *first, behind)?;
            Ok(path)
        }
    }
}

/// Returns the cell of an item: the table and the key that it has, if it has both.
pub(crate) fn cell_in(item: &Json) -> Option<(&str, i64)>
    ensures { option_map (λ cell. (cell.0.now, cell.1)) result ≡ cell_in (view item.now) }
{
    let table = item.get("t")?.as_str()?;
    let key = item.get("k")?.as_i64()?;
    Some((table, key))
}

/// Returns a cell as it follows a path.
fn table_and_key(alloc: Global, table: &str, key: i64) -> Result<String, AllocError>
    ensures { IfOk result (λ said. string_bytes said ≡ cell_text (table.now, key)) }
{
    let mut said = String::from_str(alloc, ", cell ")?;
    said.push_str(table)?;
    said.push_str("/")?;
    write!(said, "{key}")?;
    Ok(said)
}

/// Returns the cell of an item as it follows a path, and nothing where it has none.
fn cell_words(alloc: Global, item: &Json) -> Result<String, AllocError>
    ensures { IfOk result (λ said. string_bytes said ≡ option_map_or cell_text (cell_in (view item.now)) []) }
{
    match cell_in(item) {
        Some((table, key)) => table_and_key(alloc, table, key),
        None => Ok(String::new(alloc)),
    }
}

/// Returns a path and what follows it; nothing of the whole text.
#[tactic(auto, unfolding(crate::specs::Places::path_text))]
fn path_and_cell(alloc: Global, steps: &[PathStep], cell: &str) -> Result<String, AllocError>
    ensures { IfOk result (λ said. string_bytes said ≡ path_and_cell steps.now cell.now) }
{
    match steps {
        [] => Ok(String::new(alloc)),
        [first, behind @ ..] => {
            let mut said = String::from_str(alloc, ", ")?;
            add_path(&mut said, *first, behind)?;
            said.push_str(cell)?;
            Ok(said)
        }
    }
}

/// Returns what is said of the place of a value of an item: its path, and the cell where the item is a row; nothing of the
/// whole text.
fn place_words(
    alloc: Global,
    json: &Json,
    spot: FaultyItem,
    steps: &[PathStep],
) -> Result<String, AllocError>
    ensures { IfOk result (λ said. string_bytes said ≡ place_text (view json.now) spot steps.now) }
{
    let mut path = spot_steps(alloc, spot)?;
    match item_at(json, spot)? {
        Some(item) => {
            let within = steps_within(alloc, item, steps)?;
            path.extend_from_slice(within.as_slice())?;
            let cell = cell_words(alloc, item)?;
            path_and_cell(alloc, path.as_slice(), cell.as_str())
        }
        None => path_and_cell(alloc, path.as_slice(), ""),
    }
}

/// Returns where the value at steps from an item begins, or else the item, or else the text.
fn offset_of(
    alloc: Global,
    text: &[u8],
    spot: FaultyItem,
    steps: &[PathStep],
) -> Result<usize, AllocError>
    ensures { IfOk result (λ offset. offset ≤ length text.now) }
{
    let mut path = spot_steps(alloc, spot)?;
    let item = value_at(text, path.as_slice());
    path.extend_from_slice(steps)?;
    match (value_at(text, path.as_slice()), item) {
        (Some(offset), _) => Ok(offset),
        (None, Some(offset)) => Ok(offset),
        (None, None) => Ok(0),
    }
}

/// Returns the remark that a slip within an item makes.
pub fn remark_of(
    alloc: Global,
    text: &[u8],
    json: &Json,
    spot: FaultyItem,
    slip: Slip,
) -> Result<Remark, AllocError>
    ensures within { IfOk result (λ remark. remark.offset ≤ length text.now) }
    ensures place { IfOk result (λ remark. string_bytes remark.place ≡ place_text (view json.now) spot slip.steps.items) }
    ensures sentence { IfOk result (λ remark. remark.sentence ≡ slip.sentence) }
    ensures hint { IfOk result (λ remark. remark.hint ≡ slip.hint) }
{
    let offset = offset_of(alloc, text, spot, slip.steps.as_slice())?;
    let place = place_words(alloc, json, spot, slip.steps.as_slice())?;
    Ok(Remark {
        offset,
        place,
        sentence: slip.sentence,
        hint: slip.hint,
    })
}
