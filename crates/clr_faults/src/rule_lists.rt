//! The first rule of a list that can't be read.

ghost use Rattle.std.specs.Prelude.{◌≡◌, IfOk};
ghost use Rattle.serde_json.specs.View.{items_view};
ghost use Rattle.clr_faults.specs.ListFaults.{rule_fault_in};

use crate::first_faults::{FirstFault, first_fault};
use crate::item_kinds::{RuleItem, StatedRuleItem};
use clr_office_reading::formats::Format;
use clr_rows::Schema;
use serde_json::Value as Json;
use std::alloc::{AllocError, Global};

/// Returns the first rule of a list that can't be read, and else the first that names what the schema
/// hasn't, or none.
pub(crate) fn rule_fault_in(
    alloc: Global,
    format: Format,
    schema: &Schema,
    items: &[Json],
) -> Result<FirstFault, AllocError>
    ensures { IfOk result (λ first. first ≡ rule_fault_in format schema.now (items_view items.now)) }
{
    match first_fault(alloc, &StatedRuleItem { format }, items)? {
        Some(first) => Ok(Some(first)),
        None => first_fault(alloc, &RuleItem { schema }, items),
    }
}
