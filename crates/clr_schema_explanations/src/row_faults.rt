//! Rows that don't fit their table.
ghost use Rattle.std.specs.Prelude.{◌≡◌, ℕ, List, ◌++◌, codes, decimal, slice_get, string_bytes, IfOk, Some, option_map};
ghost use Rattle.std.specs.List.{enumerate_from};
ghost use Rattle.serde_json.specs.View.{view};
ghost use Rattle.clr_item_explanations.specs.Values.{items_at};
ghost use Rattle.clr_lines.specs.Replies.{row_fault_name};
ghost use Rattle.clr_hints.specs.Values.{kind_in_words};
ghost use Rattle.clr_rows.specs.Schemas.{names_of};
ghost use Rattle.clr_text_positions.specs.declared.paths.Key.TheVariants as key;
ghost use Rattle.clr_schema_explanations.specs.RowFaults.{byte_count, columns_text, far_coordinate, far_key, number_or_zero, of_column};
ghost use Rattle.clr_schema_explanations.specs.RowFaults.{is_of_other_kind, of_far_coordinate, of_far_key, of_long_text, out_of_range, unknown_table};
ghost use Rattle.clr_schema_explanations.specs.RowFaults.{wrong_in_table, wrong_kind, wrong_length, wrong_of_row, wrong_shape, wrong_value_count};
ghost use Rattle.clr_schema_explanations.specs.RowFaults.{column_text, far_key_words, far_words, long_text_words, of_other_kind, shape_words, too_far};
ghost use Rattle.clr_schema_explanations.specs.RowFaults.{too_long, wrong_in_column};
ghost use Rattle.clr_item_explanations.specs.Slips.{said};
ghost use Rattle.clr_item_explanations.specs.Tellings.{IsShown, Plain, Tells, TellsIfAny, TellsNamed, at_key, first_wrong};

use clr_hints::{
    column_names, join_names, kind_of, name_hint, shorten_value, table_names, table_of,
};
use clr_item_explanations::{Slip, coordinates_of, count_at, items_at, or_words, text_at};
use clr_lines::row_fault_word;
use clr_office_reading::tables::kind_word;
use clr_rows::{
    GREATEST_COORDINATE, GREATEST_KEY, Kind, MOST_TEXT_BYTES, RowFault, Schema, TableDef,
};
use clr_text_positions::{Key, PathStep};
use serde_json::Value as Json;
use std::alloc::{AllocError, Global};

/// Returns the name of a column, and whether it has numbers or texts.
fn column_at(table: &TableDef, at: usize) -> Option<(&str, Kind)>
    ensures { option_map (λ column. (column.0.now, column.1)) result ≡ slice_get table.now.columns at }
{
    let column = table.columns.as_slice().get(at)?;
    Some((column.0.as_str(), column.1))
}

/// Returns that a table has no columns.
fn no_columns_words(alloc: Global, table: &str) -> Result<String, AllocError>
    ensures { IfOk result (λ text. string_bytes text ≡ codes "table " ++ table.now ++ codes " has no columns") }
{
    let mut text = String::from_str(alloc, "table ")?;
    text.push_str(table)?;
    text.push_str(" has no columns")?;
    Ok(text)
}

/// Returns that a table has columns of these names.
fn listed_columns_words(alloc: Global, table: &str, names: &str) -> Result<String, AllocError>
    ensures { IfOk result (λ text. string_bytes text ≡ codes "the columns of table " ++ table.now ++ codes " are " ++ names.now) }
{
    let mut text = String::from_str(alloc, "the columns of table ")?;
    text.push_str(table)?;
    text.push_str(" are ")?;
    text.push_str(names)?;
    Ok(text)
}

/// Returns the words that a table has these columns.
#[tactic(auto, using(crate::proofs::RowLemmas::no_columns, crate::proofs::RowLemmas::some_columns))]
fn columns_words(alloc: Global, table: &TableDef) -> Result<String, AllocError>
    ensures { IfOk result (λ text. string_bytes text ≡ columns_text table.now (names_of table.now.columns)) }
{
    let columns = column_names(alloc, table)?;
    if columns.is_empty() {
        let text = no_columns_words(alloc, table.name.as_str())?;
        return Ok(text);
    }
    let names = join_names(alloc, columns.as_slice())?;
    let text = listed_columns_words(alloc, table.name.as_str(), names.as_str())?;
    Ok(text)
}

/// Returns that a row of a table has so many values, and its columns.
fn count_words(alloc: Global, count: usize, table: &TableDef) -> Result<String, AllocError>
    ensures { IfOk result (λ text. string_bytes text ≡ decimal count ++ codes " values; " ++ columns_text table.now (names_of table.now.columns)) }
{
    let columns = columns_words(alloc, table)?;
    let mut text = String::new(alloc);
    write!(text, "{count}")?;
    text.push_str(" values; ")?;
    text.push_str(columns.as_str())?;
    Ok(text)
}

/// Returns the slip that there are more or fewer values than columns.
#[tactic(auto, using(clr_item_explanations::proofs::TellingLemmas::plain_told), unfolding(crate::specs::RowFaults::wrong_value_count))]
fn wrong_count(alloc: Global, json: &Json, table: &TableDef) -> Result<Slip, AllocError>
    ensures { IfOk result (λ slip. Tells (wrong_value_count table.now (view json.now)) (said slip)) }
{
    let sentence = count_words(alloc, count_at(json, Key::V), table)?;
    Slip::new(alloc, &[PathStep::Key(Key::V)], sentence)
}

/// Returns whether a value is of another kind than a column.
fn is_of_other_kind(kind: Kind, value: &Json) -> bool
    ensures { result ≡ is_of_other_kind kind (view value.now) }
{
    match kind {
        Kind::Int => value.is_string(),
        Kind::Words => !value.is_string(),
    }
}

/// Returns the words before a value that stands in a column.
#[tactic(auto, unfolding(crate::specs::RowFaults::column_text))]
fn column_words(alloc: Global, name: &str, kind: Kind) -> Result<String, AllocError>
    ensures { IfOk result (λ text. string_bytes text ≡ column_text name.now kind) }
{
    let mut text = String::from_str(alloc, "column ")?;
    text.push_str(name)?;
    text.push_str(" is ")?;
    text.push_str(kind_word(kind))?;
    text.push_str(", and ")?;
    Ok(text)
}

/// Returns words with a value behind them as it is written, and of which kind it is.
fn words_and_kind(alloc: Global, words: &str, value: &Json) -> Result<String, AllocError>
    ensures { IfOk result (λ text. (shown : List ℕ) × IsShown (view value.now) shown
        × (string_bytes text ≡ words.now ++ shown ++ codes " is " ++ kind_in_words (view value.now))) }
{
    let shown = shorten_value(alloc, value)?;
    let mut text = String::from_str(alloc, words)?;
    text.push_str(shown.as_str())?;
    text.push_str(" is ")?;
    text.push_str(kind_of(value))?;
    Ok(text)
}

/// Returns the slip that a value is of another kind than its column.
#[tactic(auto, using(clr_item_explanations::proofs::TellingLemmas::around_told))]
fn of_column(
    alloc: Global,
    at: usize,
    name: &str,
    kind: Kind,
    value: &Json,
) -> Result<Slip, AllocError>
    ensures { IfOk result (λ slip. Tells (of_column (name.now, kind) (at, view value.now)) (said slip)) }
{
    let words = column_words(alloc, name, kind)?;
    let sentence = words_and_kind(alloc, words.as_str(), value)?;
    Slip::new(alloc, &[PathStep::Key(Key::V), PathStep::At(at)], sentence)
}

/// Returns what is wrong with the value at a place, where it is of another kind than the column there.
#[tactic(auto, using(clr_item_explanations::proofs::TellingLemmas::wrong_or_right))]
fn explain_kind(
    alloc: Global,
    at: usize,
    name: &str,
    kind: Kind,
    value: &Json,
) -> Result<Option<Slip>, AllocError>
    ensures { IfOk result (TellsIfAny (of_other_kind (name.now, kind) (at, view value.now))) }
{
    if is_of_other_kind(kind, value) {
        let slip = of_column(alloc, at, name, kind, value)?;
        return Ok(Some(slip));
    }
    Ok(None)
}

/// Returns what is wrong with the value at a place of a row of a table, where it is of another kind than its column.
#[tactic(auto, using(crate::proofs::RowLemmas::column_there, crate::proofs::RowLemmas::no_column_there))]
fn explain_in_column(
    alloc: Global,
    table: &TableDef,
    at: usize,
    value: &Json,
) -> Result<Option<Slip>, AllocError>
    ensures { IfOk result (TellsIfAny (wrong_in_column table.now (at, view value.now))) }
{
    match column_at(table, at) {
        Some(column) => {
            let found = explain_kind(alloc, at, column.0, column.1, value)?;
            Ok(found)
        }
        None => Ok(None),
    }
}

/// Returns what is wrong with the first value that is of another kind than its column.
#[tactic(auto, using(clr_item_explanations::proofs::ListLemmas::found_in_turn))]
fn first_of_other_kind(
    alloc: Global,
    json: &Json,
    table: &TableDef,
) -> Result<Option<Slip>, AllocError>
    ensures { IfOk result (TellsIfAny (first_wrong (wrong_in_column table.now) (enumerate_from 0 (items_at key.V (view json.now))))) }
{
    let items = items_at(json, Key::V);
    for (at, value) in items.iter().enumerate() {
        if let Some(slip) = explain_in_column(alloc, table, at, value)? {
            return Ok(Some(slip));
        }
    }
    Ok(None)
}

/// Returns the slip that a value is of another kind than its column: the first such value.
#[tactic(auto, unfolding(crate::specs::RowFaults::wrong_kind))]
fn wrong_kind(alloc: Global, json: &Json, table: &TableDef) -> Result<Slip, AllocError>
    ensures { IfOk result (λ slip. Tells (wrong_kind table.now (view json.now)) (said slip)) }
{
    let found = first_of_other_kind(alloc, json, table)?;
    let slip = or_words(
        alloc,
        found,
        &[PathStep::Key(Key::V)],
        "a value is of another kind than its column",
    )?;
    Ok(slip)
}

/// Returns how many bytes a text has; what is no text has none.
fn byte_count(value: &Json) -> usize
    ensures { result ≡ byte_count (view value.now) }
{
    value.as_str().unwrap_or("").len()
}

/// Returns that a text of so many bytes is too long.
fn long_text_words(alloc: Global, bytes: usize) -> Result<String, AllocError>
    ensures { IfOk result (λ text. string_bytes text ≡ long_text_words bytes) }
{
    let mut text = String::from_str(alloc, "a text of ")?;
    write!(text, "{bytes}")?;
    text.push_str(" bytes; at most ")?;
    write!(text, "{MOST_TEXT_BYTES}")?;
    text.push_str(" may stand here")?;
    Ok(text)
}

/// Returns the slip that a text is too long.
#[tactic(auto, using(clr_item_explanations::proofs::TellingLemmas::plain_told))]
fn long_text(alloc: Global, at: usize, value: &Json) -> Result<Slip, AllocError>
    ensures { IfOk result (λ slip. Tells (of_long_text (at, view value.now)) (said slip)) }
{
    let sentence = long_text_words(alloc, byte_count(value))?;
    Slip::new(alloc, &[PathStep::Key(Key::V), PathStep::At(at)], sentence)
}

/// Returns what is wrong with a value at a place, where it is a text that is too long.
#[tactic(auto, using(clr_item_explanations::proofs::TellingLemmas::right_or_wrong))]
fn explain_length(alloc: Global, at: usize, value: &Json) -> Result<Option<Slip>, AllocError>
    ensures { IfOk result (TellsIfAny (too_long (at, view value.now))) }
{
    if byte_count(value) <= MOST_TEXT_BYTES {
        return Ok(None);
    }
    let slip = long_text(alloc, at, value)?;
    Ok(Some(slip))
}

/// Returns what is wrong with the first text that is too long.
#[tactic(auto, using(clr_item_explanations::proofs::ListLemmas::found_in_turn))]
fn first_too_long(alloc: Global, json: &Json) -> Result<Option<Slip>, AllocError>
    ensures { IfOk result (TellsIfAny (first_wrong too_long (enumerate_from 0 (items_at key.V (view json.now))))) }
{
    let items = items_at(json, Key::V);
    for (at, value) in items.iter().enumerate() {
        if let Some(slip) = explain_length(alloc, at, value)? {
            return Ok(Some(slip));
        }
    }
    Ok(None)
}

/// Returns the slip that a text is too long: the first that is.
#[tactic(auto, unfolding(crate::specs::RowFaults::wrong_length))]
fn words_too_long(alloc: Global, json: &Json) -> Result<Slip, AllocError>
    ensures { IfOk result (λ slip. Tells (wrong_length (view json.now)) (said slip)) }
{
    let found = first_too_long(alloc, json)?;
    let slip = or_words(alloc, found, &[PathStep::Key(Key::V)], "a text is too long")?;
    Ok(slip)
}

/// Returns that a row of a table has so many coordinates, and how many it should have.
fn shape_words(alloc: Global, count: usize, table: &TableDef) -> Result<String, AllocError>
    ensures { IfOk result (λ text. string_bytes text ≡ shape_words count table.now) }
{
    let mut text = String::new(alloc);
    write!(text, "{count}")?;
    text.push_str(" coordinates in table ")?;
    text.push_str(table.name.as_str())?;
    text.push_str("; ")?;
    text.push_str(coordinates_of(Some(table.shape)))?;
    Ok(text)
}

/// Returns the slip that the shape isn't the table's.
#[tactic(auto, using(clr_item_explanations::proofs::TellingLemmas::plain_told), unfolding(crate::specs::RowFaults::wrong_shape))]
fn wrong_shape(alloc: Global, json: &Json, table: &TableDef) -> Result<Slip, AllocError>
    ensures { IfOk result (λ slip. Tells (wrong_shape table.now (view json.now)) (said slip)) }
{
    let sentence = shape_words(alloc, count_at(json, Key::S), table)?;
    Slip::new(alloc, &[PathStep::Key(Key::S)], sentence)
}

/// Returns the key of a cell, where it is beyond its limits.
#[tactic(auto, unfolding(crate::specs::RowFaults::far_key))]
fn far_key(json: &Json) -> Option<i64>
    ensures { result ≡ far_key (view json.now) }
{
    let key = json.get("k")?.as_i64()?;
    if 1 <= key && key <= GREATEST_KEY {
        None
    } else {
        Some(key)
    }
}

/// Returns that a key is beyond its limits.
fn far_key_words(alloc: Global, key: i64) -> Result<String, AllocError>
    ensures { IfOk result (λ text. string_bytes text ≡ far_key_words key) }
{
    let mut text = String::from_str(alloc, "the key ")?;
    write!(text, "{key}")?;
    text.push_str(" isn't from 1 to ")?;
    write!(text, "{GREATEST_KEY}")?;
    Ok(text)
}

/// Returns the slip that a key is beyond its limits.
#[tactic(auto, using(clr_item_explanations::proofs::TellingLemmas::plain_told))]
fn key_beyond(alloc: Global, key: i64) -> Result<Slip, AllocError>
    ensures { IfOk result (λ slip. Tells (of_far_key key) (said slip)) }
{
    let sentence = far_key_words(alloc, key)?;
    Slip::new(alloc, &[PathStep::Key(Key::K)], sentence)
}

/// Returns a whole number; what is none counts as 0.
fn number_or_zero(value: &Json) -> i64
    ensures { result ≡ number_or_zero (view value.now) }
{
    value.as_i64().unwrap_or(0)
}

/// Returns that a coordinate is beyond its limit.
fn far_words(alloc: Global, number: i64) -> Result<String, AllocError>
    ensures { IfOk result (λ text. string_bytes text ≡ far_words number) }
{
    let mut text = String::from_str(alloc, "the coordinate ")?;
    write!(text, "{number}")?;
    text.push_str(" is beyond ")?;
    write!(text, "{GREATEST_COORDINATE}")?;
    text.push_str(" millimetres")?;
    Ok(text)
}

/// Returns the slip that a coordinate is beyond its limit.
#[tactic(auto, using(clr_item_explanations::proofs::TellingLemmas::plain_told))]
fn coordinate_beyond(alloc: Global, at: usize, value: &Json) -> Result<Slip, AllocError>
    ensures { IfOk result (λ slip. Tells (of_far_coordinate (at, view value.now)) (said slip)) }
{
    let sentence = far_words(alloc, number_or_zero(value))?;
    Slip::new(alloc, &[PathStep::Key(Key::S), PathStep::At(at)], sentence)
}

/// Returns what is wrong with a coordinate at a place, where it is beyond its limit.
#[tactic(auto, using(clr_item_explanations::proofs::TellingLemmas::right_or_wrong))]
fn explain_far(alloc: Global, at: usize, value: &Json) -> Result<Option<Slip>, AllocError>
    ensures { IfOk result (TellsIfAny (too_far (at, view value.now))) }
{
    if number_or_zero(value).unsigned_abs() <= GREATEST_COORDINATE {
        return Ok(None);
    }
    let slip = coordinate_beyond(alloc, at, value)?;
    Ok(Some(slip))
}

/// Returns what is wrong with the first coordinate that is beyond its limit.
#[tactic(auto, using(clr_item_explanations::proofs::ListLemmas::found_in_turn))]
fn first_too_far(alloc: Global, json: &Json) -> Result<Option<Slip>, AllocError>
    ensures { IfOk result (TellsIfAny (first_wrong too_far (enumerate_from 0 (items_at key.S (view json.now))))) }
{
    let items = items_at(json, Key::S);
    for (at, value) in items.iter().enumerate() {
        if let Some(slip) = explain_far(alloc, at, value)? {
            return Ok(Some(slip));
        }
    }
    Ok(None)
}

/// Returns the slip that a coordinate is beyond its limit: the first that is.
#[tactic(auto, unfolding(crate::specs::RowFaults::far_coordinate))]
fn far_coordinate(alloc: Global, json: &Json) -> Result<Slip, AllocError>
    ensures { IfOk result (λ slip. Tells (far_coordinate (view json.now)) (said slip)) }
{
    let found = first_too_far(alloc, json)?;
    let slip = or_words(alloc, found, &[], "the key or a coordinate is out of range")?;
    Ok(slip)
}

/// Returns the slip that the key or a coordinate is beyond its limits.
#[tactic(auto, using(crate::proofs::RowLemmas::told_of_some, crate::proofs::RowLemmas::told_of_none), unfolding(crate::specs::RowFaults::out_of_range))]
fn out_of_range(alloc: Global, json: &Json) -> Result<Slip, AllocError>
    ensures { IfOk result (λ slip. Tells (out_of_range (view json.now)) (said slip)) }
{
    match far_key(json) {
        Some(key) => {
            let slip = key_beyond(alloc, key)?;
            Ok(slip)
        }
        None => {
            let slip = far_coordinate(alloc, json)?;
            Ok(slip)
        }
    }
}

/// Returns the slip that no table has the name of a cell.
#[tactic(auto, using(clr_item_explanations::proofs::TellingLemmas::name_told), unfolding(crate::specs::RowFaults::unknown_table))]
fn no_table(alloc: Global, json: &Json, schema: &Schema) -> Result<Slip, AllocError>
    ensures { IfOk result (λ slip. Tells (unknown_table schema.now (view json.now)) (said slip)) }
{
    let name = text_at(json, Key::T);
    let names = table_names(alloc, schema)?;
    let sentence = format!(in alloc; "no table is called '{name}'")?;
    let hint = name_hint(alloc, name, names.as_slice())?;
    Ok(Slip::new(alloc, &[PathStep::Key(Key::T)], sentence)?.with_hint(hint))
}

/// Returns the slip of these words on the shape of a row.
#[tactic(auto, using(clr_item_explanations::proofs::TellingLemmas::plain_told))]
fn shape_slip(alloc: Global, words: &str) -> Result<Slip, AllocError>
    ensures { IfOk result (λ slip. Tells (at_key key.S (Plain words.now)) (said slip)) }
{
    Slip::of_words(alloc, &[PathStep::Key(Key::S)], words)
}

/// Returns why a row can't stand in its table.
fn of_fault(
    alloc: Global,
    json: &Json,
    table: &TableDef,
    fault: RowFault,
) -> Result<Slip, AllocError>
    ensures { IfOk result (λ slip. Tells (wrong_in_table fault table.now (view json.now)) (said slip)) }
{
    match fault {
        RowFault::WrongCount => wrong_count(alloc, json, table),
        RowFault::WrongKind => wrong_kind(alloc, json, table),
        RowFault::WordsTooLong => words_too_long(alloc, json),
        RowFault::WrongShape => wrong_shape(alloc, json, table),
        RowFault::NoTable | RowFault::OutOfRange => out_of_range(alloc, json),
        RowFault::ZeroSegment => {
            shape_slip(alloc, "two vertices that follow one another are one place")
        }
        RowFault::BadPath => shape_slip(alloc, "a path has 2 to 32 vertices"),
    }
}

/// Returns what is wrong with a row that has a fault, without the fault's name.
#[tactic(auto, using(crate::proofs::RowLemmas::told_of_table, crate::proofs::RowLemmas::told_of_no_table), unfolding(crate::specs::RowFaults::wrong_of_row))]
fn of_row(alloc: Global, json: &Json, schema: &Schema, fault: RowFault) -> Result<Slip, AllocError>
    ensures { IfOk result (λ slip. Tells (wrong_of_row schema.now fault (view json.now)) (said slip)) }
{
    match table_of(schema, text_at(json, Key::T)) {
        Some(table) => {
            let slip = of_fault(alloc, json, table, fault)?;
            Ok(slip)
        }
        None => {
            let slip = no_table(alloc, json, schema)?;
            Ok(slip)
        }
    }
}

/// Returns why the row of an item can't stand at its cell, for the fault that it has: the name of the fault, and a sentence.
pub fn explain_row_fault(
    alloc: Global,
    json: &Json,
    schema: &Schema,
    fault: RowFault,
) -> Result<Slip, AllocError>
    ensures { IfOk result (λ slip. TellsNamed (row_fault_name fault) (wrong_of_row schema.now fault (view json.now)) (said slip)) }
{
    let slip = of_row(alloc, json, schema, fault)?;
    slip.with_name(alloc, row_fault_word(fault))
}
