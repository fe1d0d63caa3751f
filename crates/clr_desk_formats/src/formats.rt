//! The text of an office, a row a line.
ghost use Rattle.std.specs.Prelude.{◌≡◌, Ok, None, true, false, IfOk};
ghost use Rattle.clr_office_texts.specs.Drafts.{draft_in, opened_in};
ghost use Rattle.clr_office_texts.specs.Writing.{bytes_of};
ghost use Rattle.clr_desk_formats.specs.Formats.{IsFormatPrint, IsInLines};
ghost use Rattle.clr_desk_prints.specs.Printing.{IsMadePrintout, IsPrintoutIn, printed};

use crate::line_ends::with_line_ends;
use clr_desk_prints::{Print, notes_of};
use clr_engine::Office;
use clr_office::{RunFault, open_office};
use clr_office_texts::write_office;
use std::alloc::{AllocError, Global};

/// Returns whether lines are read as an office whose broken needs are known, and which has this text.
fn is_read_as(alloc: Global, lines: &[u8], office: &Office, text: &[u8]) -> Result<bool, AllocError>
    requires text { text.now ≡ bytes_of office.now }
    requires again { draft_in text.now ≡ Ok office.now }
    ensures yes { IfOk result (λ same. same ≡ true → opened_in lines.now ≡ Ok (office.now, None)) }
    ensures no { IfOk result (λ same. same ≡ false → ¬ (opened_in lines.now ≡ Ok (office.now, None))) }
{
    let _office = office;
    match open_office(alloc, lines) {
        Ok(opened) => Ok(write_office(alloc, &opened)?.as_slice() == text),
        Err(Err(RunFault::OutOfMemory)) => Err(AllocError),
        Err(_) => Ok(false),
    }
}

/// Returns the text of an office, a row a line, ended by `\n`. Where that weren't read as the same office it
/// would be the text in one line.
fn text_in_lines(alloc: Global, office: &Office) -> Result<Vec<u8>, AllocError>
    ensures { IfOk result (λ text. IsInLines office.now text.items) }
{
    let text = write_office(alloc, office)?;
    let mut lines = with_line_ends(alloc, text.as_slice())?;
    lines.push(b'\n')?;
    if is_read_as(alloc, lines.as_slice(), office, text.as_slice())? {
        return Ok(lines);
    }
    Ok(text)
}

/// Returns what is printed of an office in lines.
fn format_print(alloc: Global, office: &Office) -> Result<Print, AllocError>
    ensures { IfOk result (λ p. IsFormatPrint office.now (printed p)) }
{
    let text = text_in_lines(alloc, office)?;
    Ok(Print::of_text(alloc, text))
}

/// Returns the office of a text, a row a line.
pub fn answer_format(alloc: Global, office: &[u8]) -> Result<Print, RunFault>
    ensures { IsMadePrintout (IsPrintoutIn IsFormatPrint (opened_in office.now)) result }
{
    match open_office(alloc, office) {
        Ok(office) => Ok(format_print(alloc, &office)?),
        Err(answer) => notes_of(alloc, answer),
    }
}
