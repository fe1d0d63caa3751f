//! The item of a workspace that has a fault.

ghost use Rattle.std.specs.Prelude.{Ok, IfOk};
ghost use Rattle.serde_json.specs.View.{view};
ghost use Rattle.clr_faults.specs.Behind.{BehindBase, BehindHead, BehindRows, HasWorkspace};
ghost use Rattle.clr_faults.specs.Spots.{IsFaultAt};

use crate::items::item_in;
use crate::marks::spot_at_mark;
use crate::parts::{cell_fault_at, mark_fault};
use crate::read_parts::{has_cells, has_head};
use crate::spots::FaultyItem;
use crate::texts::{FaultyText, place_with};
use serde_json::Value as Json;
use std::alloc::{AllocError, Global};

/// Returns the mark of a workspace that has the fault, a cell of it, or the workspace.
fn spot_in_marks(
    alloc: Global,
    text: FaultyText,
    at: usize,
    one: &Json,
) -> Result<FaultyItem, AllocError>
    requires { BehindRows (view text.json.now) text.fault text.format text.schema.now at (view one.now) }
    ensures { IfOk result (IsFaultAt (view text.entry.json.now) text.entry.fault) }
{
    match place_with(mark_fault(alloc, one, text.schema)?, text.fault) {
        Some(mark) => spot_at_mark(alloc, text, at, one, mark),
        None => Ok(FaultyItem::Workspace(at)),
    }
}

/// Returns the cell of a workspace's rows that has the fault, or what comes behind the rows.
fn spot_behind_base(
    alloc: Global,
    text: FaultyText,
    at: usize,
    one: &Json,
) -> Result<FaultyItem, AllocError>
    requires { BehindBase (view text.json.now) text.fault text.format text.schema.now at (view one.now) }
    ensures { IfOk result (IsFaultAt (view text.entry.json.now) text.entry.fault) }
{
    let first = cell_fault_at(alloc, one, "rows", text.schema)?;
    if let Some(cell) = place_with(first, text.fault) {
        return Ok(FaultyItem::Row(at, cell));
    }
    if has_cells(alloc, one, "rows", text.schema)? {
        spot_in_marks(alloc, text, at, one)
    } else {
        Ok(FaultyItem::Workspace(at))
    }
}

/// Returns the cell of a workspace's base that has the fault, or what comes behind the base.
fn spot_behind_head(
    alloc: Global,
    text: FaultyText,
    at: usize,
    one: &Json,
) -> Result<FaultyItem, AllocError>
    requires { BehindHead (view text.json.now) text.fault text.format text.schema.now at (view one.now) }
    ensures { IfOk result (IsFaultAt (view text.entry.json.now) text.entry.fault) }
{
    let first = cell_fault_at(alloc, one, "base", text.schema)?;
    if let Some(cell) = place_with(first, text.fault) {
        return Ok(FaultyItem::Base(at, cell));
    }
    if has_cells(alloc, one, "base", text.schema)? {
        spot_behind_base(alloc, text, at, one)
    } else {
        Ok(FaultyItem::Workspace(at))
    }
}

/// Returns the item of a workspace that has the fault, or the workspace.
pub fn spot_at_workspace(
    alloc: Global,
    text: FaultyText,
    at: usize,
) -> Result<FaultyItem, AllocError>
    requires { HasWorkspace (view text.json.now) text.fault text.format text.schema.now at }
    ensures { IfOk result (IsFaultAt (view text.entry.json.now) text.entry.fault) }
{
    let Some(one) = item_in(text.json, "workspaces", at)? else {
        return Ok(FaultyItem::Workspace(at));
    };
    if has_head(alloc, one, text.format)? {
        spot_behind_head(alloc, text, at, one)
    } else {
        Ok(FaultyItem::Workspace(at))
    }
}
