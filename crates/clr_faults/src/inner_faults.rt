//! Faults of rows, of books of rules and of schemas, which the reader of offices drops.

ghost use Rattle.std.specs.Prelude.{◌≡◌, IfOk};
ghost use Rattle.serde_json.specs.View.{view};
ghost use Rattle.clr_office_reading.specs.Patches.{put_fault};
ghost use Rattle.clr_faults.specs.InnerFaults.{book_fault_of, put_fault_of, tables_fault_of};

use crate::memory::unless_lost;
use clr_office_reading::formats::Format;
use clr_office_reading::live::cell;
use clr_office_reading::named_cells::named_cell;
use clr_office_reading::rules::each_rule;
use clr_office_reading::stated_rules::{parted, stated_rules};
use clr_office_reading::tables::tables;
use clr_rows::{CellId, Row, RowFault, Schema, SchemaFault};
use clr_rules::{RuleBook, RuleFault};
use serde_json::Value as Json;
use std::alloc::{AllocError, Global};

/// Returns why the tables of an office text make no schema, or none where they make one or can't be
/// read.
#[tactic(auto, unfolding(crate::specs::InnerFaults::tables_fault_of))]
pub fn schema_fault_of(
    alloc: Global,
    json: &Json,
    format: Format,
) -> Result<Option<SchemaFault>, AllocError>
    ensures { IfOk result (λ found. found ≡ tables_fault_of format (view json.now)) }
{
    match tables(alloc, json, format) {
        Ok(tables) => match Schema::new(tables) {
            Ok(_) => Ok(None),
            Err(fault) => Ok(Some(fault)),
        },
        Err(fault) => unless_lost(fault, None),
    }
}

/// Returns the number of the first rule of an office text that can't stand in a book over the schema,
/// and why; or none where they make a book or can't be read.
#[tactic(auto, unfolding(crate::specs::InnerFaults::book_fault_of))]
pub fn rule_fault_of(
    alloc: Global,
    json: &Json,
    format: Format,
    schema: &Schema,
) -> Result<Option<(u16, RuleFault)>, AllocError>
    ensures { IfOk result (λ found. found ≡ book_fault_of format schema.now (view json.now)) }
{
    let stated = match stated_rules(alloc, json, format) {
        Ok(stated) => stated,
        Err(fault) => return unless_lost(fault, None),
    };
    let parts = parted(alloc, stated)?;
    let rules = match each_rule(alloc, schema, parts.0) {
        Ok(rules) => rules,
        Err(fault) => return unless_lost(fault, None),
    };
    match RuleBook::new(schema, rules) {
        Ok(_) => Ok(None),
        Err(numbered) => Ok(Some(numbered)),
    }
}

/// Returns why no row, or not this one, can stand at a cell.
fn put_fault(schema: &Schema, cell: CellId, row: &Option<Row>) -> Option<RowFault>
    ensures { result ≡ put_fault schema.now cell row.now }
{
    let answer = match row {
        Some(row) => schema.fits(cell, row),
        None => schema.names_cell(cell),
    };
    answer.err()
}

/// Returns why the row of an item can't stand at its cell, or none where it can, the item can't be
/// read or its table isn't known.
#[tactic(auto, unfolding(crate::specs::InnerFaults::put_fault_of))]
pub fn row_fault_at(
    alloc: Global,
    json: &Json,
    schema: &Schema,
) -> Result<Option<RowFault>, AllocError>
    ensures { IfOk result (λ found. found ≡ put_fault_of schema.now (view json.now)) }
{
    let named = match named_cell(alloc, json, schema) {
        Ok(named) => named,
        Err(fault) => return unless_lost(fault, None),
    };
    match cell(schema, &named.table, named.key) {
        Ok(cell) => Ok(put_fault(schema, cell, &named.row)),
        Err(fault) => unless_lost(fault, None),
    }
}
