//! What is printed of a cut is marked as one, and of its layers it is said that they are of one.

ghost use Rattle.std.specs.Prelude.{◌≡◌, IfOk};
ghost use Rattle.clr_cut_texts.specs.Marks.{is_cut_text};
ghost use Rattle.clr_desk.specs.CutMarks.{IsMadeOf, marked_text, with_cut_note, with_mark};
ghost use Rattle.clr_desk_prints.specs.Printing.{printed};

use clr_cut_texts::{is_cut, write_cut};
use clr_desk_prints::Print;
use clr_office::RunFault;
use clr_office_reading::{TextFault, read_office};
use std::alloc::{AllocError, Global};

/// Returns an office text as that of a cut. What is no office text stays as it is.
#[tactic(auto, using(crate::proofs::CutMarkLemmas::filled_marked))]
fn marked_text(alloc: Global, text: Vec<u8>) -> Result<Vec<u8>, AllocError>
    ensures { IfOk result (λ marked. marked.items ≡ marked_text text.items) }
{
    if text.is_empty() {
        return Ok(text);
    }
    match read_office(alloc, text.as_slice()) {
        Ok(office) => {
            let mut marked = write_cut(alloc, office)?;
            marked.push(b'\n')?;
            Ok(marked)
        }
        Err(TextFault::OutOfMemory) => Err(AllocError),
        Err(_) => Ok(text),
    }
}

/// Returns a print of an office text, with its text marked where that office is a cut.
#[tactic(auto, using(crate::proofs::CutMarkLemmas::shown_marked))]
fn with_mark(alloc: Global, office: &[u8], print: Print) -> Result<Print, AllocError>
    ensures { IfOk result (λ p. printed p ≡ with_mark (is_cut_text office.now) (printed print)) }
{
    if is_cut(alloc, office)? {
        let Print {
            text,
            notes,
            ending,
        } = print;
        let text = marked_text(alloc, text)?;
        Ok(Print {
            text,
            notes,
            ending,
        })
    } else {
        Ok(print)
    }
}

/// Returns an answer to what is asked of an office text, with its text marked where that office is a cut.
pub(crate) fn marked(
    alloc: Global,
    office: &[u8],
    answer: Result<Print, RunFault>,
) -> Result<Print, RunFault>
    ensures { IsMadeOf (with_mark (is_cut_text office.now)) answer result }
{
    match answer {
        Ok(print) => Ok(with_mark(alloc, office, print)?),
        Err(fault) => Err(fault),
    }
}

/// What is said of a layer of a cut.
const CUT_NOTE: &[u8] =
    b"cut: this layer has the rows of the cut alone; give it back to a design of the cut, and to no table\n";

/// Returns a print of an office text, with a last note where that office is a cut.
fn with_cut_note(alloc: Global, office: &[u8], print: Print) -> Result<Print, AllocError>
    ensures { IfOk result (λ p. printed p ≡ with_cut_note (is_cut_text office.now) (printed print)) }
{
    if is_cut(alloc, office)? {
        print.with_notes(CUT_NOTE)
    } else {
        Ok(print)
    }
}

/// Returns an answer to what is asked of an office text, with a last note where that office is a cut.
pub(crate) fn noted(
    alloc: Global,
    office: &[u8],
    answer: Result<Print, RunFault>,
) -> Result<Print, RunFault>
    ensures { IsMadeOf (with_cut_note (is_cut_text office.now)) answer result }
{
    match answer {
        Ok(print) => Ok(with_cut_note(alloc, office, print)?),
        Err(fault) => Err(fault),
    }
}
