//! The first mark of a list that can't be read.

ghost use Rattle.std.specs.Prelude.{◌≡◌, IfOk};
ghost use Rattle.serde_json.specs.View.{items_view};
ghost use Rattle.clr_faults.specs.ListFaults.{mark_fault_in};

use crate::first_faults::{FirstFault, first_fault};
use crate::item_kinds::{MarkItem, NamedMarkItem};
use clr_rows::Schema;
use serde_json::Value as Json;
use std::alloc::{AllocError, Global};

/// Returns the first mark of a list that can't be read, and else the first whose cells can't stand,
/// or none.
pub(crate) fn mark_fault_in(
    alloc: Global,
    schema: &Schema,
    items: &[Json],
) -> Result<FirstFault, AllocError>
    ensures { IfOk result (λ first. first ≡ mark_fault_in schema.now (items_view items.now)) }
{
    match first_fault(alloc, &NamedMarkItem { schema }, items)? {
        Some(first) => Ok(Some(first)),
        None => first_fault(alloc, &MarkItem { schema }, items),
    }
}
