//! The first fault of each list of an office text.

ghost use Rattle.std.specs.Prelude.{◌≡◌, IfOk};
ghost use Rattle.serde_json.specs.View.{view};
ghost use Rattle.clr_faults.specs.InnerFaults.{book_fault_of};
ghost use Rattle.clr_faults.specs.KnownFaults.{known_fault_of};
ghost use Rattle.clr_faults.specs.ListFaults.{fault_else};
ghost use Rattle.clr_faults.specs.Parts.{bad_known, bad_rule, cell_fault_at, live_fault, mark_fault, first_rule_fault, table_fault, workspace_fault};

use crate::cell_lists::{cell_fault_in, row_fault_in};
use crate::first_faults::{FirstFault, first_fault};
use crate::inner_faults::rule_fault_of;
use crate::item_kinds::TableItem;
use crate::known_faults::known_need_fault_of;
use crate::mark_lists::mark_fault_in;
use crate::memory::unless_lost;
use crate::rule_lists::rule_fault_in;
use crate::workspace_lists::workspace_fault_in;
use clr_office_reading::TextFault;
use clr_office_reading::fields::{list_in, optional_list};
use clr_office_reading::formats::Format;
use clr_rows::Schema;
use serde_json::Value as Json;
use std::alloc::{AllocError, Global};

/// Returns the first table that can't be read, or none.
#[tactic(auto, unfolding(crate::specs::Parts::table_fault))]
pub fn table_fault(alloc: Global, json: &Json, format: Format) -> Result<FirstFault, AllocError>
    ensures { IfOk result (λ first. first ≡ table_fault format (view json.now)) }
{
    match list_in(json, "tables") {
        Ok(items) => first_fault(alloc, &TableItem { format }, items),
        Err(fault) => unless_lost(fault, None),
    }
}

/// Returns the first rule that can't stand in a book over the schema, and else the first with a known need that it can't have;
/// or none.
fn rule_fault_over(
    alloc: Global,
    json: &Json,
    format: Format,
    schema: &Schema,
) -> Result<FirstFault, AllocError>
    ensures { IfOk result (λ first. first
        ≡ fault_else (bad_rule (book_fault_of format schema.now (view json.now))) (bad_known (known_fault_of format schema.now (view json.now)))) }
{
    if let Some((number, _)) = rule_fault_of(alloc, json, format, schema)? {
        return Ok(Some((number as usize, TextFault::BadRule)));
    }
    match known_need_fault_of(alloc, json, format, schema)? {
        Some(found) => Ok(Some((found.rule, TextFault::BadRule))),
        None => Ok(None),
    }
}

/// Returns the first rule that can't be read; else the first that names what the schema hasn't; else
/// the first that can't stand in a book over it; else the first with a known need that it can't have; or none.
#[tactic(auto, unfolding(crate::specs::Parts::first_rule_fault))]
pub fn rule_fault(
    alloc: Global,
    json: &Json,
    format: Format,
    schema: &Schema,
) -> Result<FirstFault, AllocError>
    ensures { IfOk result (λ first. first ≡ first_rule_fault format schema.now (view json.now)) }
{
    let items = match optional_list(json, "rules") {
        Ok(items) => items,
        Err(fault) => return unless_lost(fault, None),
    };
    if let Some(first) = rule_fault_in(alloc, format, schema, items)? {
        return Ok(Some(first));
    }
    rule_fault_over(alloc, json, format, schema)
}

/// Returns the first row of LIVE that can't be read, and else the first that can't stand behind the
/// others, or none.
#[tactic(auto, unfolding(crate::specs::Parts::live_fault))]
pub fn live_fault(alloc: Global, json: &Json, schema: &Schema) -> Result<FirstFault, AllocError>
    ensures { IfOk result (λ first. first ≡ live_fault schema.now (view json.now)) }
{
    match list_in(json, "live") {
        Ok(items) => row_fault_in(alloc, schema, items),
        Err(fault) => unless_lost(fault, None),
    }
}

/// Returns the first workspace that can't be read behind those before it, or none.
#[tactic(auto, unfolding(crate::specs::Parts::workspace_fault))]
pub fn workspace_fault(
    alloc: Global,
    json: &Json,
    format: Format,
    schema: &Schema,
) -> Result<FirstFault, AllocError>
    ensures { IfOk result (λ first. first ≡ workspace_fault format schema.now (view json.now)) }
{
    match optional_list(json, "workspaces") {
        Ok(items) => workspace_fault_in(alloc, format, schema, items),
        Err(fault) => unless_lost(fault, None),
    }
}

/// Returns the first cell at a key of a workspace, or of a mark, that can't be read, and else the
/// first that can't stand beside the others, or none.
#[tactic(auto, unfolding(crate::specs::Parts::cell_fault_at))]
pub fn cell_fault_at(
    alloc: Global,
    json: &Json,
    key: &str,
    schema: &Schema,
) -> Result<FirstFault, AllocError>
    ensures { IfOk result (λ first. first ≡ cell_fault_at key.now schema.now (view json.now)) }
{
    match optional_list(json, key) {
        Ok(items) => cell_fault_in(alloc, schema, items),
        Err(fault) => unless_lost(fault, None),
    }
}

/// Returns the first mark of a workspace that can't be read, and else the first whose cells can't
/// stand, or none.
#[tactic(auto, unfolding(crate::specs::Parts::mark_fault))]
pub fn mark_fault(alloc: Global, json: &Json, schema: &Schema) -> Result<FirstFault, AllocError>
    ensures { IfOk result (λ first. first ≡ mark_fault schema.now (view json.now)) }
{
    match optional_list(json, "marks") {
        Ok(items) => mark_fault_in(alloc, schema, items),
        Err(fault) => unless_lost(fault, None),
    }
}
