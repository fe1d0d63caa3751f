//! Tables that can be read and make no schema.
ghost use Rattle.std.specs.Prelude.{◌≡◌, map, string_bytes, take, IfOk};
ghost use Rattle.serde_json.specs.View.{view};
ghost use Rattle.clr_text_positions.specs.declared.paths.Key.TheVariants as key;
ghost use Rattle.clr_rows.specs.Schemas.{is_column_name};
ghost use Rattle.clr_schema_explanations.specs.SchemaFaults.{schema_fault_name};
ghost use Rattle.clr_schema_explanations.specs.SchemaFaults.{at_column_name, bad_column, bad_column_at, bad_name, bad_name_in, bad_name_text, column_twice};
ghost use Rattle.clr_schema_explanations.specs.SchemaFaults.{table_names, taken_column};
ghost use Rattle.clr_schema_explanations.specs.SchemaFaults.{column_count_text, if_taken, table_count_text, taken_name, taken_name_in, too_many};
ghost use Rattle.clr_schema_explanations.specs.SchemaFaults.{too_many_columns};
ghost use Rattle.clr_schema_explanations.specs.SchemaFaults.{unless_column_name, wrong_of_schema};
ghost use Rattle.clr_item_explanations.specs.Slips.{said};
ghost use Rattle.clr_item_explanations.specs.Tellings.{Plain, Tells, TellsIfAny, TellsNamed, wrong_in_list};
ghost use Rattle.clr_item_explanations.specs.Values.{first_text};

use clr_hints::GOOD_NAME;
use clr_item_explanations::{Slip, count_at, items_at, or_words, stands_among, text_at};
use clr_rows::{KEY, MOST_COLUMNS, MOST_TABLES, SchemaFault, good_name};
use clr_text_positions::{Key, PathStep};
use serde_json::Value as Json;
use std::alloc::{AllocError, Global};

/// Returns the name of a column, or no text.
#[tactic(auto, unfolding(clr_item_explanations::specs::Values::first_text))]
fn column_name(json: &Json) -> &str
    ensures { result.now ≡ first_text (view json.now) }
{
    match json.get(0) {
        Some(name) => name.as_str().unwrap_or(""),
        None => "",
    }
}

/// Returns the slip of a sentence on the name of a column.
#[tactic(auto, using(clr_item_explanations::proofs::TellingLemmas::plain_told))]
fn column_slip(alloc: Global, at: usize, sentence: String) -> Result<Slip, AllocError>
    ensures { IfOk result (λ slip. Tells (at_column_name at (Plain (string_bytes sentence))) (said slip)) }
{
    let steps = [
        PathStep::Key(Key::Columns),
        PathStep::At(at),
        PathStep::At(0),
    ];
    Slip::new(alloc, &steps, sentence)
}

/// Returns whether a column may have a name.
fn is_column_name(name: &str) -> bool
    ensures { result ≡ is_column_name name.now }
{
    good_name(name) && name != KEY
}

/// Returns the words that a name is no good name of what has it.
fn bad_name_words(alloc: Global, name: &str, of: &str) -> Result<String, AllocError>
    ensures { IfOk result (λ text. string_bytes text ≡ bad_name_text name.now of.now) }
{
    let mut text = String::from_str(alloc, "'")?;
    text.push_str(name)?;
    text.push_str("' is no good name of a ")?;
    text.push_str(of)?;
    text.push_str(": ")?;
    text.push_str(GOOD_NAME)?;
    Ok(text)
}

/// Returns the slip that a column has a bad name.
fn bad_column_name(alloc: Global, at: usize, name: &str) -> Result<Slip, AllocError>
    ensures { IfOk result (λ slip. Tells (bad_column_at at name.now) (said slip)) }
{
    let mut sentence = bad_name_words(alloc, name, "column")?;
    sentence.push_str(", and isn't KEY")?;
    column_slip(alloc, at, sentence)
}

/// Returns what is wrong with the name of a column, where it is a bad one.
#[tactic(auto, using(clr_item_explanations::proofs::TellingLemmas::right_or_wrong))]
fn explain_column_name(alloc: Global, at: usize, name: &str) -> Result<Option<Slip>, AllocError>
    ensures { IfOk result (TellsIfAny (unless_column_name at name.now)) }
{
    if is_column_name(name) {
        return Ok(None);
    }
    let slip = bad_column_name(alloc, at, name)?;
    Ok(Some(slip))
}

/// Returns the first column of a table with a bad name.
#[tactic(auto, using(clr_item_explanations::proofs::ListLemmas::found_in_turn), unfolding(crate::specs::SchemaFaults::bad_column))]
fn bad_column(alloc: Global, json: &Json) -> Result<Option<Slip>, AllocError>
    ensures { IfOk result (TellsIfAny (bad_column (view json.now))) }
{
    let items = items_at(json, Key::Columns);
    for (at, column) in items.iter().enumerate() {
        if let Some(slip) = explain_column_name(alloc, at, column_name(column))? {
            return Ok(Some(slip));
        }
    }
    Ok(None)
}

/// Returns the slip that a table has a bad name, or a column with one; none where neither has.
#[tactic(auto, using(clr_item_explanations::proofs::TellingLemmas::words_unless), unfolding(crate::specs::SchemaFaults::bad_name_in))]
fn bad_name_in(alloc: Global, table: &Json) -> Result<Option<Slip>, AllocError>
    ensures { IfOk result (TellsIfAny (bad_name_in (view table.now))) }
{
    let name = text_at(table, Key::Name);
    if good_name(name) {
        return bad_column(alloc, table);
    }
    let sentence = bad_name_words(alloc, name, "table")?;
    Ok(Some(Slip::new(alloc, &[PathStep::Key(Key::Name)], sentence)?))
}

/// Returns what is wrong with the first table with a bad name, or with a column that has one.
#[tactic(auto, using(clr_item_explanations::proofs::ListLemmas::items_in_turn))]
fn first_bad_name(alloc: Global, json: &Json) -> Result<Option<Slip>, AllocError>
    ensures { IfOk result (TellsIfAny (wrong_in_list key.Tables (λ at table. bad_name_in table) (view json.now))) }
{
    let items = items_at(json, Key::Tables);
    for (at, table) in items.iter().enumerate() {
        if let Some(slip) = bad_name_in(alloc, table)? {
            return Ok(Some(slip.below(alloc, &[PathStep::Key(Key::Tables), PathStep::At(at)])?));
        }
    }
    Ok(None)
}

/// Returns the slip that a table or a column has a bad name: the first that has.
#[tactic(auto, unfolding(crate::specs::SchemaFaults::bad_name))]
fn bad_name(alloc: Global, json: &Json) -> Result<Slip, AllocError>
    ensures { IfOk result (λ slip. Tells (bad_name (view json.now)) (said slip)) }
{
    let found = first_bad_name(alloc, json)?;
    let slip = or_words(
        alloc,
        found,
        &[PathStep::Key(Key::Tables)],
        "a name of a table or of a column is bad",
    )?;
    Ok(slip)
}

/// Returns the slip that a column has the name of another before it.
#[tactic(auto, using(clr_item_explanations::proofs::TellingLemmas::plain_told))]
fn column_twice(alloc: Global, at: usize, name: &str) -> Result<Slip, AllocError>
    ensures { IfOk result (λ slip. Tells (column_twice at name.now) (said slip)) }
{
    let sentence = format!(in alloc; "column '{name}' stands twice in its table")?;
    column_slip(alloc, at, sentence)
}

/// Returns what is wrong with the name of a column, where it is one of those before it.
#[tactic(auto, using(clr_item_explanations::proofs::TellingLemmas::wrong_or_right))]
fn explain_taken(
    alloc: Global,
    earlier: &[&str],
    at: usize,
    name: &str,
) -> Result<Option<Slip>, AllocError>
    ensures { IfOk result (TellsIfAny (if_taken (map (λ one. one.now) earlier.now) at name.now)) }
{
    if stands_among(earlier, name) {
        let slip = column_twice(alloc, at, name)?;
        return Ok(Some(slip));
    }
    Ok(None)
}

/// Returns the first column of a table whose name stands there before.
#[tactic(auto, using(clr_item_explanations::proofs::ListLemmas::found_in_turn), unfolding(crate::specs::SchemaFaults::taken_column))]
fn column_taken(alloc: Global, json: &Json) -> Result<Option<Slip>, AllocError>
    ensures { IfOk result (TellsIfAny (taken_column (view json.now))) }
{
    let mut names: Vec<&str> = Vec::new(alloc);
    let items = items_at(json, Key::Columns);
    for (at, column) in items.iter().enumerate() {
        let name = column_name(column);
        if let Some(slip) = explain_taken(alloc, names.as_slice(), at, name)? {
            return Ok(Some(slip));
        }
        names.push(name)?;
    }
    Ok(None)
}

/// Returns the slip that a table has one of these names, or a column whose name stands there before; none where neither is so.
#[tactic(auto, using(clr_item_explanations::proofs::TellingLemmas::words_if), unfolding(crate::specs::SchemaFaults::taken_name_in))]
fn name_taken_in(alloc: Global, table: &Json, names: &[&str]) -> Result<Option<Slip>, AllocError>
    ensures { IfOk result (TellsIfAny (taken_name_in (map (λ name. name.now) names.now) (view table.now))) }
{
    let name = text_at(table, Key::Name);
    if !stands_among(names, name) {
        return column_taken(alloc, table);
    }
    let sentence = format!(in alloc; "an earlier table is called '{name}'")?;
    Ok(Some(Slip::new(alloc, &[PathStep::Key(Key::Name)], sentence)?))
}

/// Returns what is wrong with the first table whose name stands before, or that has a column whose name does.
fn first_taken_name(alloc: Global, json: &Json) -> Result<Option<Slip>, AllocError>
    ensures { IfOk result (TellsIfAny (wrong_in_list key.Tables (λ at table. taken_name_in (take at (table_names (view json.now))) table) (view json.now))) }
{
    let mut names: Vec<&str> = Vec::new(alloc);
    let items = items_at(json, Key::Tables);
    for (at, table) in items.iter().enumerate() {
        if let Some(slip) = name_taken_in(alloc, table, names.as_slice())? {
            return Ok(Some(slip.below(alloc, &[PathStep::Key(Key::Tables), PathStep::At(at)])?));
        }
        names.push(text_at(table, Key::Name))?;
    }
    Ok(None)
}

/// Returns the slip that a name of a table or of a column stands before: the first that does.
#[tactic(auto, unfolding(crate::specs::SchemaFaults::taken_name))]
fn name_taken(alloc: Global, json: &Json) -> Result<Slip, AllocError>
    ensures { IfOk result (λ slip. Tells (taken_name (view json.now)) (said slip)) }
{
    let found = first_taken_name(alloc, json)?;
    let slip = or_words(
        alloc,
        found,
        &[PathStep::Key(Key::Tables)],
        "a name of a table or of a column stands twice",
    )?;
    Ok(slip)
}

/// Returns that a table has so many columns, and how many it may have.
fn column_count_words(alloc: Global, count: usize) -> Result<String, AllocError>
    ensures { IfOk result (λ text. string_bytes text ≡ column_count_text count) }
{
    let mut text = String::from_str(alloc, "a table of ")?;
    write!(text, "{count}")?;
    text.push_str(" columns; at most ")?;
    write!(text, "{MOST_COLUMNS}")?;
    text.push_str(" may stand here")?;
    Ok(text)
}

/// Returns that there are so many tables, and how many there may be.
fn table_count_words(alloc: Global, count: usize) -> Result<String, AllocError>
    ensures { IfOk result (λ text. string_bytes text ≡ table_count_text count) }
{
    let mut text = String::new(alloc);
    write!(text, "{count}")?;
    text.push_str(" tables; at most ")?;
    write!(text, "{MOST_TABLES}")?;
    text.push_str(" may stand here")?;
    Ok(text)
}

/// Returns what is wrong with a table of too many columns.
#[tactic(auto, using(clr_item_explanations::proofs::TellingLemmas::right_if, clr_item_explanations::proofs::TellingLemmas::plain_else))]
fn too_many_columns(alloc: Global, table: &Json) -> Result<Option<Slip>, AllocError>
    ensures { IfOk result (TellsIfAny (too_many_columns (view table.now))) }
{
    let count = count_at(table, Key::Columns);
    if count <= MOST_COLUMNS {
        return Ok(None);
    }
    let sentence = column_count_words(alloc, count)?;
    Ok(Some(Slip::new(alloc, &[PathStep::Key(Key::Columns)], sentence)?))
}

/// Returns what is wrong with the first table of too many columns.
#[tactic(auto, using(clr_item_explanations::proofs::ListLemmas::items_in_turn))]
fn first_too_many(alloc: Global, json: &Json) -> Result<Option<Slip>, AllocError>
    ensures { IfOk result (TellsIfAny (wrong_in_list key.Tables (λ at table. too_many_columns table) (view json.now))) }
{
    let items = items_at(json, Key::Tables);
    for (at, table) in items.iter().enumerate() {
        if let Some(slip) = too_many_columns(alloc, table)? {
            return Ok(Some(slip.below(alloc, &[PathStep::Key(Key::Tables), PathStep::At(at)])?));
        }
    }
    Ok(None)
}

/// Returns the slip that there are too many tables, or too many columns in one.
#[tactic(auto, unfolding(crate::specs::SchemaFaults::too_many))]
fn too_many(alloc: Global, json: &Json) -> Result<Slip, AllocError>
    ensures { IfOk result (λ slip. Tells (too_many (view json.now)) (said slip)) }
{
    let found = first_too_many(alloc, json)?;
    let words = table_count_words(alloc, count_at(json, Key::Tables))?;
    let slip = or_words(alloc, found, &[PathStep::Key(Key::Tables)], words.as_str())?;
    Ok(slip)
}

/// Returns the name of a fault of a schema.
fn schema_fault_word(fault: SchemaFault) -> &'static str
    ensures { result.now ≡ schema_fault_name fault }
{
    match fault {
        SchemaFault::TooMany => "TooMany",
        SchemaFault::BadName => "BadName",
        SchemaFault::NameTaken => "NameTaken",
    }
}

/// Returns what is wrong with tables that have a fault, without the fault's name.
fn of_tables(alloc: Global, json: &Json, fault: SchemaFault) -> Result<Slip, AllocError>
    ensures { IfOk result (λ slip. Tells (wrong_of_schema fault (view json.now)) (said slip)) }
{
    match fault {
        SchemaFault::TooMany => too_many(alloc, json),
        SchemaFault::BadName => bad_name(alloc, json),
        SchemaFault::NameTaken => name_taken(alloc, json),
    }
}

/// Returns why the tables of an office text make no schema, for the fault that they have: the name of the fault, and a sentence.
/// Its steps lead from the whole text.
pub fn explain_schema(alloc: Global, json: &Json, fault: SchemaFault) -> Result<Slip, AllocError>
    ensures { IfOk result (λ slip. TellsNamed (schema_fault_name fault) (wrong_of_schema fault (view json.now)) (said slip)) }
{
    let slip = of_tables(alloc, json, fault)?;
    slip.with_name(alloc, schema_fault_word(fault))
}
