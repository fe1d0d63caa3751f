//! What is wrong where the reader drops the fault: with the tables, with a rule over the schema, with a row in its table.
ghost use Rattle.std.specs.Prelude.{◌≡◌, unwrap_or, Ok, IfOk, Option};
ghost use Rattle.serde_json.specs.Data.{Data};
ghost use Rattle.serde_json.specs.View.{view};
ghost use Rattle.clr_office_reading.specs.Offices.{format_of};
ghost use Rattle.clr_item_explanations.specs.Tellings.{Tells, TellsIfAny, Wrong};
ghost use Rattle.clr_explanations.specs.Items.{item_at_spot};
ghost use Rattle.clr_explanations.specs.WrongItems.{unknown};
ghost use Rattle.clr_explanations.specs.Remarks.{TellsBadRow, TellsBadRule, TellsBadSchema, TellsKnownFault, TellsRowFault, TellsRowOfNoTable};
ghost use Rattle.clr_explanations.specs.Remarks.{TellsRuleFault, TellsRuleOfNoName, TellsSchemaFault};
ghost use Rattle.clr_item_explanations.specs.Slips.{said};

use crate::items::item_at;
use crate::known_slips::explain_need;
use crate::readings::{format_in, schema_in};
use clr_faults::{FaultyItem, known_need_fault_of, row_fault_at, rule_fault_of, schema_fault_of};
use clr_item_explanations::{Slip, or_words};
use clr_office_reading::formats::Format;
use clr_rows::Schema;
use clr_schema_explanations::{
    explain_row_fault, explain_rule_fault, explain_schema, unknown_name_slip, unknown_table_slip,
};
use serde_json::Value as Json;
use std::alloc::{AllocError, Global};

/// Returns what is found, or that nothing is.
pub fn slip_or_unknown(alloc: Global, slip: Option<Slip>) -> Result<Slip, AllocError>
    ensures { IfOk result (λ found. (wrong : Option Wrong) → TellsIfAny wrong slip → Tells (unwrap_or wrong unknown) (said found)) }
{
    or_words(alloc, slip, &[], "this can't be read as it stands")
}

/// Returns why the tables of a text of a format make no schema.
#[tactic(auto, using(crate::proofs::NamedFaults::names_schema_fault, crate::proofs::NamedFaults::no_schema_fault))]
fn slip_of_tables(alloc: Global, json: &Json, format: Format) -> Result<Slip, AllocError>
    ensures { IfOk result (λ slip. TellsSchemaFault format (view json.now) (said slip)) }
{
    match schema_fault_of(alloc, json, format)? {
        Some(fault) => explain_schema(alloc, json, fault),
        None => slip_or_unknown(alloc, None),
    }
}

/// Returns why the tables of a text make no schema.
#[tactic(auto, using(crate::proofs::NamedFaults::names_bad_schema, crate::proofs::NamedFaults::no_format))]
pub fn schema_slip(alloc: Global, json: &Json) -> Result<Slip, AllocError>
    ensures { IfOk result (λ slip. TellsBadSchema (view json.now) (said slip)) }
{
    match format_in(json)? {
        Some(format) => slip_of_tables(alloc, json, format),
        None => slip_or_unknown(alloc, None),
    }
}

/// Returns the first name of a rule that the schema hasn't.
#[tactic(auto, using(crate::proofs::NamedFaults::first_name_told, crate::proofs::NamedFaults::no_first_name))]
fn slip_of_names(alloc: Global, rule: &Json, schema: &Schema) -> Result<Slip, AllocError>
    ensures { IfOk result (λ slip. TellsRuleOfNoName schema.now (view rule.now) (said slip)) }
{
    match unknown_name_slip(alloc, rule, schema)? {
        Some(slip) => Ok(slip),
        None => slip_or_unknown(alloc, None),
    }
}

/// Returns what the rule at an item names that the schema hasn't.
#[tactic(auto, using(crate::proofs::NamedFaults::names_told, crate::proofs::NamedFaults::no_rule_there))]
fn slip_of_name(
    alloc: Global,
    json: &Json,
    spot: FaultyItem,
    schema: &Schema,
) -> Result<Slip, AllocError>
    ensures { IfOk result (λ slip. (item : Data) → item_at_spot spot (view json.now) ≡ Ok item → TellsRuleOfNoName schema.now item (said slip)) }
{
    match item_at(json, spot)? {
        Some(rule) => {
            let slip = slip_of_names(alloc, rule, schema)?;
            Ok(slip)
        }
        None => slip_or_unknown(alloc, None),
    }
}

/// Returns the first known need that its rule can't have, or what a rule names that the schema hasn't.
#[tactic(auto, using(crate::proofs::NamedFaults::need_told, crate::proofs::NamedFaults::rule_names_told))]
fn slip_of_need(
    alloc: Global,
    json: &Json,
    spot: FaultyItem,
    format: Format,
    schema: &Schema,
) -> Result<Slip, AllocError>
    ensures { IfOk result (λ slip. TellsKnownFault format schema.now (view json.now) spot (said slip)) }
{
    match known_need_fault_of(alloc, json, format, schema)? {
        Some(need) => explain_need(alloc, need),
        None => slip_of_name(alloc, json, spot, schema),
    }
}

/// Returns why a rule can't stand in a book over a schema.
#[tactic(auto, using(crate::proofs::NamedFaults::rule_fault_told, crate::proofs::NamedFaults::no_book_fault))]
fn slip_of_rule(
    alloc: Global,
    json: &Json,
    spot: FaultyItem,
    format: Format,
    schema: &Schema,
) -> Result<Slip, AllocError>
    ensures { IfOk result (λ slip. TellsRuleFault format schema.now (view json.now) spot (said slip)) }
{
    match rule_fault_of(alloc, json, format, schema)? {
        Some((_, fault)) => explain_rule_fault(alloc, fault),
        None => slip_of_need(alloc, json, spot, format, schema),
    }
}

/// Returns why a rule of a text of this format can't stand over the schema.
#[tactic(auto, using(crate::proofs::NamedFaults::names_bad_rule, crate::proofs::NamedFaults::no_tables))]
fn rule_slip_in(
    alloc: Global,
    json: &Json,
    spot: FaultyItem,
    format: Format,
) -> Result<Slip, AllocError>
    requires { format_of (view json.now) ≡ Ok format }
    ensures { IfOk result (λ slip. TellsBadRule (view json.now) spot (said slip)) }
{
    match schema_in(alloc, json)? {
        Some(schema) => {
            let slip = slip_of_rule(alloc, json, spot, format, &schema)?;
            Ok(slip)
        }
        None => slip_or_unknown(alloc, None),
    }
}

/// Returns why a rule can't stand over the schema.
#[tactic(auto, using(crate::proofs::NamedFaults::no_format_of_rules))]
pub fn rule_slip(alloc: Global, json: &Json, spot: FaultyItem) -> Result<Slip, AllocError>
    ensures { IfOk result (λ slip. TellsBadRule (view json.now) spot (said slip)) }
{
    match format_in(json)? {
        Some(format) => rule_slip_in(alloc, json, spot, format),
        None => slip_or_unknown(alloc, None),
    }
}

/// Returns that the schema hasn't the table of a row.
#[tactic(auto, using(crate::proofs::NamedFaults::table_told, crate::proofs::NamedFaults::known_table))]
fn slip_of_table(alloc: Global, item: &Json, schema: &Schema) -> Result<Slip, AllocError>
    ensures { IfOk result (λ slip. TellsRowOfNoTable schema.now (view item.now) (said slip)) }
{
    match unknown_table_slip(alloc, item, schema)? {
        Some(slip) => Ok(slip),
        None => slip_or_unknown(alloc, None),
    }
}

/// Returns why the row of an item can't stand in its table.
#[tactic(auto, using(crate::proofs::NamedFaults::row_fault_told, crate::proofs::NamedFaults::row_table_told))]
fn slip_of_row(alloc: Global, item: &Json, schema: &Schema) -> Result<Slip, AllocError>
    ensures { IfOk result (λ slip. TellsRowFault schema.now (view item.now) (said slip)) }
{
    match row_fault_at(alloc, item, schema)? {
        Some(fault) => explain_row_fault(alloc, item, schema, fault),
        None => slip_of_table(alloc, item, schema),
    }
}

/// Returns why the row at an item can't stand in its table.
#[tactic(auto, using(crate::proofs::NamedFaults::names_bad_row, crate::proofs::NamedFaults::no_tables_of_row, crate::proofs::NamedFaults::no_item))]
pub fn row_slip(alloc: Global, json: &Json, spot: FaultyItem) -> Result<Slip, AllocError>
    ensures { IfOk result (λ slip. TellsBadRow (view json.now) spot (said slip)) }
{
    let Some(schema) = schema_in(alloc, json)? else {
        return slip_or_unknown(alloc, None);
    };
    match item_at(json, spot)? {
        Some(item) => slip_of_row(alloc, item, &schema),
        None => slip_or_unknown(alloc, None),
    }
}
