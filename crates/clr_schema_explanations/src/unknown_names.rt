//! Names of tables and columns that the schema hasn't.
ghost use Rattle.std.specs.Prelude.{◌≡◌, ◌++◌, codes, string_bytes, IfNone, IfOk, IfSome, IsErr, MatchOption, Ok, option_map};
ghost use Rattle.serde_json.specs.View.{view};
ghost use Rattle.clr_rule_text.specs.Fields.{text_lacks_memory};
ghost use Rattle.clr_rule_text.specs.Rules.{named_rule_of};
ghost use Rattle.clr_schema_explanations.specs.Names.{HasTable, NamesAreKnown, TellsFirstUnknown, TellsNoColumn, TellsNoTable, TellsUnknownName};
ghost use Rattle.clr_schema_explanations.specs.Names.{TellsUnknownTable, name_in_rule};
ghost use Rattle.clr_item_explanations.specs.Values.{text_at};
ghost use Rattle.clr_text_positions.specs.declared.paths.Key.TheVariants as key;

use crate::rule_names::{RuleName, first_unknown, names_of_rule};
use clr_hints::{column_names, name_hint, table_names, table_of};
use clr_item_explanations::{Slip, text_at};
use clr_office_reading::TextFault;
use clr_office_reading::named_rules::{NamedRule, named_rule};
use clr_rows::{Schema, TableDef};
use clr_text_positions::{Key, PathStep};
use serde_json::Value as Json;
use std::alloc::{AllocError, Global};

/// Returns a slip at these steps.
fn slip_at(
    alloc: Global,
    steps: &[PathStep],
    sentence: String,
    hint: Option<String>,
) -> Result<Slip, AllocError>
    ensures steps { IfOk result (λ slip. slip.steps.items ≡ steps.now) }
    ensures sentence { IfOk result (λ slip. slip.sentence ≡ sentence) }
    ensures hint { IfOk result (λ slip. slip.hint ≡ hint) }
{
    Ok(Slip {
        steps: Vec::from_slice(alloc, steps)?,
        sentence,
        hint,
    })
}

/// Returns the slip that no table has the name at these steps.
#[tactic(auto, using(crate::proofs::NameLemmas::table_told))]
fn no_table(
    alloc: Global,
    schema: &Schema,
    name: &str,
    steps: &[PathStep],
) -> Result<Slip, AllocError>
    ensures steps { IfOk result (λ slip. slip.steps.items ≡ steps.now) }
    ensures told { IfOk result (λ slip. TellsNoTable schema.now name.now (string_bytes slip.sentence) (option_map string_bytes slip.hint)) }
{
    let names = table_names(alloc, schema)?;
    let sentence = format!(in alloc; "NoTable: no table is called '{name}'")?;
    let hint = name_hint(alloc, name, names.as_slice())?;
    slip_at(alloc, steps, sentence, hint)
}

/// Returns that a table has no column of a name.
fn no_column_words(alloc: Global, table: &str, name: &str) -> Result<String, AllocError>
    ensures { IfOk result (λ text. string_bytes text ≡ codes "NoColumn: table " ++ table.now ++ codes " has no column '" ++ name.now ++ codes "'") }
{
    let mut text = String::from_str(alloc, "NoColumn: table ")?;
    text.push_str(table)?;
    text.push_str(" has no column '")?;
    text.push_str(name)?;
    text.push_str("'")?;
    Ok(text)
}

/// Returns the slip that a table has no column of the name at these steps.
#[tactic(auto, using(crate::proofs::NameLemmas::column_told))]
fn no_column(
    alloc: Global,
    table: &TableDef,
    name: &str,
    steps: &[PathStep],
) -> Result<Slip, AllocError>
    ensures steps { IfOk result (λ slip. slip.steps.items ≡ steps.now) }
    ensures told { IfOk result (λ slip. TellsNoColumn table.now name.now (string_bytes slip.sentence) (option_map string_bytes slip.hint)) }
{
    let names = column_names(alloc, table)?;
    let sentence = no_column_words(alloc, table.name.as_str(), name)?;
    let hint = name_hint(alloc, name, names.as_slice())?;
    slip_at(alloc, steps, sentence, hint)
}

/// Returns the slip that the table of a row or a cell isn't known, with the table that may be meant as its hint; or none where the
/// schema has the table.
pub fn unknown_table_slip(
    alloc: Global,
    json: &Json,
    schema: &Schema,
) -> Result<Option<Slip>, AllocError>
    ensures none { IfOk result (λ found. IfNone found (HasTable schema.now (text_at key.T (view json.now)))) }
    ensures told { IfOk result (λ found. IfSome found (λ slip. TellsUnknownTable schema.now (text_at key.T (view json.now)) slip.steps.items
        (string_bytes slip.sentence) (option_map string_bytes slip.hint))) }
{
    let name = text_at(json, Key::T);
    match table_of(schema, name) {
        Some(_) => Ok(None),
        None => Ok(Some(no_table(alloc, schema, name, &[PathStep::Key(Key::T)])?)),
    }
}

/// Tests whether a fault is want of memory.
fn lacks_memory(fault: TextFault) -> bool
    ensures { result ≡ text_lacks_memory fault }
{
    match fault {
        TextFault::OutOfMemory => true,
        TextFault::NotJson
        | TextFault::BadField
        | TextFault::BadSchema
        | TextFault::BadRule
        | TextFault::BadRow
        | TextFault::RepeatedCell
        | TextFault::BadPart => false,
    }
}

/// Returns a rule with its names, or none where it can't be read.
#[tactic(auto, using(crate::proofs::NameLemmas::unread))]
fn rule_in(alloc: Global, json: &Json) -> Result<Option<NamedRule>, AllocError>
    ensures { IfOk result (λ found. MatchOption found (IsErr (named_rule_of (view json.now))) (λ rule. named_rule_of (view json.now) ≡ Ok rule)) }
{
    match named_rule(alloc, json) {
        Ok(rule) => Ok(Some(rule)),
        Err(fault) => {
            if lacks_memory(fault) {
                return Err(AllocError);
            }
            Ok(None)
        }
    }
}

/// Returns the slip that a schema hasn't the table or the column of a name of a rule.
#[tactic(auto, using(crate::proofs::NameLemmas::no_table_told, crate::proofs::NameLemmas::no_column_told))]
fn name_slip(alloc: Global, schema: &Schema, name: RuleName) -> Result<Slip, AllocError>
    ensures { IfOk result (λ slip. TellsUnknownName schema.now (name_in_rule name.entry) slip.steps.items (string_bytes slip.sentence)
        (option_map string_bytes slip.hint)) }
{
    let steps = name.place.steps(alloc)?;
    match table_of(schema, name.table) {
        None => no_table(alloc, schema, name.table, steps.as_slice()),
        Some(table) => no_column(alloc, table, name.column_text(), steps.as_slice()),
    }
}

/// Returns the slip that the schema hasn't the first table or column that a rule names and it hasn't, with the name that may be
/// meant as its hint; or none where it has all of them or the rule can't be read.
#[tactic(auto, using(crate::proofs::NameLemmas::first_told, crate::proofs::NameLemmas::all_known, crate::proofs::NameLemmas::none_read))]
pub fn unknown_name_slip(
    alloc: Global,
    json: &Json,
    schema: &Schema,
) -> Result<Option<Slip>, AllocError>
    ensures none { IfOk result (λ found. IfNone found (NamesAreKnown schema.now (view json.now))) }
    ensures told { IfOk result (λ found. IfSome found (λ slip. TellsFirstUnknown schema.now (view json.now) slip.steps.items (string_bytes slip.sentence)
        (option_map string_bytes slip.hint))) }
{
    let Some(rule) = rule_in(alloc, json)? else {
        return Ok(None);
    };
    let names = names_of_rule(alloc, &rule)?;
    match first_unknown(schema, names.as_slice()) {
        Some(name) => Ok(Some(name_slip(alloc, schema, name)?)),
        None => Ok(None),
    }
}
