//! Whether a text can be used, and where its fault is.
ghost use Rattle.std.specs.Prelude.{◌≡◌, ◌++◌, codes, IfOk};
ghost use Rattle.clr_desk_prints.specs.Printing.{IsMadePrintout, printed};
ghost use Rattle.clr_desk_faults.specs.Whys.{IsWhy, IsWhyPrint, why_print};

use clr_desk_command_line::TextKind;
use clr_desk_prints::{Ending, Print, RunFault};
use clr_text_diagnosis::{Why, why_certificate, why_office, why_script};
use std::alloc::{AllocError, Global};

/// Returns that there is no fault, and more lines.
pub(crate) fn no_fault_and(alloc: Global, lines: &[u8]) -> Result<Vec<u8>, AllocError>
    ensures { IfOk result (λ text. text.items ≡ codes "no fault\n" ++ lines.now) }
{
    let mut text = Vec::from_slice(alloc, b"no fault\n")?;
    text.extend_from_slice(lines)?;
    Ok(text)
}

/// Returns what is printed of what is found in a text.
pub(crate) fn print_of_why(alloc: Global, why: Why) -> Result<Print, AllocError>
    ensures { IfOk result (λ p. printed p ≡ why_print why) }
{
    let (text, ending) = match why {
        Why::NoFault => (Vec::from_slice(alloc, b"no fault\n")?, Ending::Done),
        Why::OldErrors(lines) => (no_fault_and(alloc, lines.as_slice())?, Ending::Done),
        Why::Unheld(lines) => (lines, Ending::Unheld),
        Why::Faulty(lines) => (lines, Ending::Unread),
    };
    Ok(Print {
        text,
        notes: Vec::new(alloc),
        ending,
    })
}

/// Returns what is found in the text of a kind: the office text, or the second one over it.
fn why_of(alloc: Global, kind: &TextKind, office: &[u8], second: &[u8]) -> Result<Why, AllocError>
    ensures { IfOk result (IsWhy kind.now office.now second.now) }
{
    match kind {
        TextKind::Office => why_office(alloc, office),
        TextKind::Script => why_script(alloc, office, second),
        TextKind::Certificate => why_certificate(alloc, office, second),
    }
}

/// Returns why the text of a kind can't be used, if it can't.
pub fn answer_why(
    alloc: Global,
    kind: &TextKind,
    office: &[u8],
    second: &[u8],
) -> Result<Print, RunFault>
    ensures { IsMadePrintout (IsWhyPrint kind.now office.now second.now) result }
{
    let why = why_of(alloc, kind, office, second)?;
    Ok(print_of_why(alloc, why)?)
}
