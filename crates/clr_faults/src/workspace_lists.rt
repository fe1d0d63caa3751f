//! The first workspace of a list that can't be read behind those before it.

ghost use Rattle.std.specs.Prelude.{◌≡◌, IfOk};
ghost use Rattle.serde_json.specs.View.{items_view};
ghost use Rattle.clr_faults.specs.ListFaults.{workspace_fault_in};

use crate::first_faults::FirstFault;
use crate::memory::unless_lost;
use clr_deltas::StoredPart;
use clr_office_reading::earlier_names::note_name;
use clr_office_reading::formats::Format;
use clr_office_reading::workspaces::workspace;
use clr_rows::Schema;
use serde_json::Value as Json;
use std::alloc::{AllocError, Global};
use std::collections::BTreeSet;

/// Returns the first workspace of a list that can't be read behind those before it, or none.
pub(crate) fn workspace_fault_in(
    alloc: Global,
    format: Format,
    schema: &Schema,
    items: &[Json],
) -> Result<FirstFault, AllocError>
    ensures { IfOk result (λ first. first ≡ workspace_fault_in format schema.now (items_view items.now)) }
{
    let mut parts: Vec<StoredPart> = Vec::new(alloc);
    let mut names = BTreeSet::new(alloc);
    for (at, item) in items.iter().enumerate() {
        match workspace(alloc, item, format, schema, parts.as_slice(), &names) {
            Ok(one) => {
                note_name(&mut names, &one.name)?;
                parts.push(one)?;
            }
            Err(fault) => return unless_lost(fault, Some((at, fault))),
        }
    }
    Ok(None)
}
