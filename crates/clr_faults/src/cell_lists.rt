//! The first row, or the first cell, of a list that can't stand there.

ghost use Rattle.std.specs.Prelude.{◌≡◌, IfOk, OnErr};
ghost use Rattle.serde_json.specs.View.{items_view, view};
ghost use Rattle.clr_rows.specs.Contents.{no_rows};
ghost use Rattle.clr_deltas.specs.Differences.{no_differences};
ghost use Rattle.clr_readings.specs.Readings.{Gives};
ghost use Rattle.clr_rule_text.specs.Fields.{text_lacks_memory};
ghost use Rattle.clr_faults.specs.FirstFaults.{first_fault_from};
ghost use Rattle.clr_faults.specs.ListFaults.{cell_fault_in, row_fault_in};
ghost use Rattle.clr_faults.specs.Readings.{put_cell_of, put_row_of};

use crate::first_faults::{FirstFault, first_fault};
use crate::item_kinds::{NamedCellItem, NamedRowItem};
use crate::memory::unless_lost;
use clr_deltas::Differences;
use clr_office_reading::TextFault;
use clr_office_reading::cells::named_row;
use clr_office_reading::live::put_row;
use clr_office_reading::named_cells::named_cell;
use clr_office_reading::patches::put_cell;
use clr_rows::{Schema, Sheet};
use serde_json::Value as Json;
use std::alloc::{AllocError, Global};

#[tactic(auto, unfolding(crate::specs::Readings::put_row_of))]
fn put_row_item(
    alloc: Global,
    schema: &Schema,
    sheet: &mut Sheet,
    json: &Json,
) -> Result<(), TextFault>
    ensures value { Gives text_lacks_memory (λ _. sheet.new) result (put_row_of schema.now sheet.old (view json.now)) }
    ensures err { OnErr result (sheet.new ≡ sheet.old) }
{
    let named = named_row(alloc, json, schema)?;
    put_row(schema, sheet, named)
}

#[tactic(auto, unfolding(crate::specs::Readings::put_cell_of))]
fn put_cell_item(
    alloc: Global,
    schema: &Schema,
    differences: &mut Differences,
    json: &Json,
) -> Result<(), TextFault>
    ensures value { Gives text_lacks_memory (λ _. differences.new) result (put_cell_of schema.now differences.old (view json.now)) }
    ensures err { OnErr result (differences.new ≡ differences.old) }
{
    let named = named_cell(alloc, json, schema)?;
    put_cell(schema, differences, named)
}

/// Returns the first row that can't be put into a content of those before it.
fn first_misfit_row(
    alloc: Global,
    schema: &Schema,
    items: &[Json],
) -> Result<FirstFault, AllocError>
    ensures { IfOk result (λ first. first ≡ first_fault_from (put_row_of schema.now) no_rows 0 (items_view items.now)) }
{
    let mut sheet = Sheet::new(alloc);
    for (at, item) in items.iter().enumerate() {
        match put_row_item(alloc, schema, &mut sheet, item) {
            Ok(()) => {}
            Err(fault) => return unless_lost(fault, Some((at, fault))),
        }
    }
    Ok(None)
}

/// Returns the first cell that can't be put beside those before it.
fn first_misfit_cell(
    alloc: Global,
    schema: &Schema,
    items: &[Json],
) -> Result<FirstFault, AllocError>
    ensures { IfOk result (λ first. first ≡ first_fault_from (put_cell_of schema.now) no_differences 0 (items_view items.now)) }
{
    let mut differences = Differences::new(alloc);
    for (at, item) in items.iter().enumerate() {
        match put_cell_item(alloc, schema, &mut differences, item) {
            Ok(()) => {}
            Err(fault) => return unless_lost(fault, Some((at, fault))),
        }
    }
    Ok(None)
}

/// Returns the first of LIVE's rows that can't be read, and else the first that can't stand behind
/// those before it, or none.
pub(crate) fn row_fault_in(
    alloc: Global,
    schema: &Schema,
    items: &[Json],
) -> Result<FirstFault, AllocError>
    ensures { IfOk result (λ first. first ≡ row_fault_in schema.now (items_view items.now)) }
{
    match first_fault(alloc, &NamedRowItem { schema }, items)? {
        Some(first) => Ok(Some(first)),
        None => first_misfit_row(alloc, schema, items),
    }
}

/// Returns the first cell of a list that can't be read, and else the first that can't stand beside
/// those before it, or none.
pub(crate) fn cell_fault_in(
    alloc: Global,
    schema: &Schema,
    items: &[Json],
) -> Result<FirstFault, AllocError>
    ensures { IfOk result (λ first. first ≡ cell_fault_in schema.now (items_view items.now)) }
{
    match first_fault(alloc, &NamedCellItem { schema }, items)? {
        Some(first) => Ok(Some(first)),
        None => first_misfit_cell(alloc, schema, items),
    }
}
