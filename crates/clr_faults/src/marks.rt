//! The cell of a savepoint that has a fault.

ghost use Rattle.std.specs.Prelude.{IfOk};
ghost use Rattle.serde_json.specs.View.{view};
ghost use Rattle.clr_faults.specs.Behind.{HasMark};
ghost use Rattle.clr_faults.specs.Spots.{IsFaultAt};

use crate::items::item_in;
use crate::parts::cell_fault_at;
use crate::read_parts::is_savepoint;
use crate::spots::FaultyItem;
use crate::texts::{FaultyText, place_with};
use serde_json::Value as Json;
use std::alloc::{AllocError, Global};

/// Returns the cell of a savepoint that has the fault, or its mark.
pub fn spot_at_mark(
    alloc: Global,
    text: FaultyText,
    at: usize,
    one: &Json,
    mark: usize,
) -> Result<FaultyItem, AllocError>
    requires { HasMark (view text.json.now) text.fault text.format text.schema.now at (view one.now) mark }
    ensures { IfOk result (IsFaultAt (view text.entry.json.now) text.entry.fault) }
{
    let Some(item) = item_in(one, "marks", mark)? else {
        return Ok(FaultyItem::Mark(at, mark));
    };
    if !is_savepoint(alloc, item)? {
        return Ok(FaultyItem::Mark(at, mark));
    }
    let first = cell_fault_at(alloc, item, "rows", text.schema)?;
    match place_with(first, text.fault) {
        Some(cell) => Ok(FaultyItem::Saved(at, mark, cell)),
        None => Ok(FaultyItem::Mark(at, mark)),
    }
}
