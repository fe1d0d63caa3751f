//! Systems of coordinates, by name.

ghost use Rattle.std.specs.Prelude.{◌≡◌, ◌≢◌, ℕ, ◌<◌, ◌^◌, decimal, None, IfOk, IfSome};
ghost use Rattle.clr_desk_prints.specs.Systems.{IsNoSystem, no_system_print, system_name};
ghost use Rattle.clr_desk_prints.specs.Printing.{printed};

use crate::prints::{Ending, Print};
use clr_records::read_number;
use std::alloc::{AllocError, Global};

/// Returns the number of 32 bits whose decimal a text is, if it is one.
fn code_of(digits: &str) -> Option<u32>
    ensures named { IfSome result (λ code. digits.now ≡ decimal code) }
    ensures no_other { result ≡ None → (code : ℕ) → code < 2 ^ 32 → digits.now ≢ decimal code }
{
    let number = read_number(digits)?;
    match u32::try_from(number) {
        Ok(code) => Some(code),
        Err(_) => None,
    }
}

/// Returns the number of a system of coordinates in the register of EPSG that a text names, as `EPSG:25832`; or none where it names none.
pub fn system_of(text: &str) -> Option<u32>
    ensures named { IfSome result (λ code. text.now ≡ system_name code) }
    ensures no_other { result ≡ None → IsNoSystem text.now }
{
    match text.strip_prefix("EPSG:") {
        Some(digits) => code_of(digits),
        None => None,
    }
}

/// Returns what is printed where a text names no system of coordinates.
pub fn print_of_no_system(alloc: Global, text: &str) -> Result<Print, AllocError>
    ensures { IfOk result (λ print. printed print ≡ no_system_print text.now) }
{
    let mut notes = Vec::from_slice(alloc, b"'")?;
    notes.extend_from_slice(text.as_bytes())?;
    notes.extend_from_slice(
        b"' names no system of coordinates: write EPSG: and a number, as EPSG:25832\n",
    )?;
    Ok(Print {
        text: Vec::new(alloc),
        notes,
        ending: Ending::Unread,
    })
}
