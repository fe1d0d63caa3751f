//! Lines and prints about a design, with its name in front.

ghost use Rattle.std.specs.Prelude.{◌≡◌, IfOk};
ghost use Rattle.clr_desk_designs.specs.InTurn.{named_text, with_name};
ghost use Rattle.clr_desk_prints.specs.Printing.{printed};

use clr_desk_prints::Print;
use std::alloc::{AllocError, Global};

/// Returns lines with the name of a design in front.
pub(crate) fn named_text(alloc: Global, name: &str, lines: &[u8]) -> Result<Vec<u8>, AllocError>
    ensures { IfOk result (λ text. text.items ≡ named_text name.now lines.now) }
{
    let mut text = Vec::from_slice(alloc, name.as_bytes())?;
    text.extend_from_slice(b": ")?;
    text.extend_from_slice(lines)?;
    Ok(text)
}

/// Returns a print with the name of a design in front of its notes.
pub(crate) fn named_print(alloc: Global, name: &str, print: Print) -> Result<Print, AllocError>
    ensures { IfOk result (λ p. printed p ≡ with_name name.now (printed print)) }
{
    let Print {
        text,
        notes,
        ending,
    } = print;
    let named = named_text(alloc, name, notes.as_slice())?;
    Ok(Print {
        text,
        notes: named,
        ending,
    })
}
