//! An office text whose fault is looked for.

ghost use Rattle.std.specs.Prelude.{◌≡◌, ◌≢◌, ℕ, Some, MatchOption};

use crate::first_faults::FirstFault;
use clr_office_reading::TextFault;
use clr_office_reading::formats::Format;
use clr_rows::Schema;
use serde_json::Value as Json;

/// An office text with a schema, and its fault.
#[derive(Clone, Copy)]
pub struct FaultyText<'a> {
    pub json: &'a Json,
    pub format: Format,
    pub schema: &'a Schema,
    pub fault: TextFault,
}

/// Returns the place of an item that has this fault, if it has just this one.
pub fn place_with(first: FirstFault, fault: TextFault) -> Option<usize>
    ensures { MatchOption result ((at : ℕ) → first ≢ Some (at, fault)) (λ at. first ≡ Some (at, fault)) }
{
    match first {
        Some((at, found)) if found == fault => Some(at),
        _ => None,
    }
}
