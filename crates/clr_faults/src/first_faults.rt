//! The first item of a list that can't be read.

ghost use Rattle.std.specs.Prelude.{◌≡◌, IfOk};
ghost use Rattle.serde_json.specs.View.{items_view};
ghost use Rattle.clr_faults.specs.FirstFaults.{alone, first_fault_from};

use crate::item_kinds::Item;
use crate::memory::unless_lost;
use clr_office_reading::TextFault;
use serde_json::Value as Json;
use std::alloc::{AllocError, Global};

/// The place of an item in its list, counted from 0, and its fault; or none.
pub type FirstFault = Option<(usize, TextFault)>;

/// Returns the first item of a list that can't be read on its own, or none where all can be read.
pub(crate) fn first_fault<I: Item>(
    alloc: Global,
    kind: &I,
    items: &[Json],
) -> Result<FirstFault, AllocError>
    ensures { IfOk result (λ first. first ≡ first_fault_from (alone (I.reads kind.now)) tt 0 (items_view items.now)) }
{
    for (at, item) in items.iter().enumerate() {
        match kind.read(alloc, item) {
            Ok(()) => {}
            Err(fault) => return unless_lost(fault, Some((at, fault))),
        }
    }
    Ok(None)
}
