//! Where the fault is that an edit puts into an office text.

use crate::office_faults::cases::{EDITS, OFFICE};
use crate::questions::check_of;
use clr_faults::find_fault;
use std::alloc::Global;

/// Returns `fits`, or the fault of a text and the item that it is at.
pub(crate) fn fault_text(alloc: Global, text: &str) -> Option<String> {
    match find_fault(alloc, text.as_bytes()).ok()? {
        Some(found) => format!(in alloc; "{:?} {:?}", found.fault, found.spot).ok(),
        None => String::from_str(alloc, "fits").ok(),
    }
}

/// Returns the office text with another part in place of one that stands in it.
fn edit_part(alloc: Global, part: &str, other: &str) -> Option<String> {
    let (before, behind) = OFFICE.split_once(part)?;
    format!(in alloc; "{before}{other}{behind}").ok()
}

/// Returns the fault that an edit puts into the text, which has what stands there and what is to.
pub(crate) fn answer(alloc: Global, edit: &str) -> Option<String> {
    let (part, other) = edit.split_once(" ~ ")?;
    let text = edit_part(alloc, part, other)?;
    fault_text(alloc, text.as_str())
}

#[test]
fn faults_are_where_they_were_put(rt: HostRuntime) {
    check_of(&rt, rt.alloc(), "edited", EDITS);
}
