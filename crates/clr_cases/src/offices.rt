//! Offices of texts, in which a script is done.

use clr_engine::Office;
use clr_office_test_kit::{office_of, perform_script};
use std::alloc::Global;

/// Returns the office of a text, in which each command of a script was done; none where one wasn't.
pub fn office_after(alloc: Global, text: &str, script: &str) -> Option<Office> {
    let mut office = office_of(alloc, text)?;
    if perform_script(alloc, &mut office, script)? {
        Some(office)
    } else {
        None
    }
}
