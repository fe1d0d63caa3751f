//! Offices with their errors accepted, and offices that are opened whatever is broken in them.

ghost use Rattle.std.specs.Prelude.{◌≡◌, Ok, IfErr, IfOk};
ghost use Rattle.clr_office_reading.specs.Offices.{known_in};
ghost use Rattle.clr_office_texts.specs.Drafts.{draft_in};
ghost use Rattle.clr_office_reports.specs.Printing.{IsOfficeFault};
ghost use Rattle.clr_desk_errors.specs.Accepting.{IsAccepted, IsAcceptPrint, IsAcceptedPrint, IsPrintoutOfDraft, accepted_text};
ghost use Rattle.clr_desk_prints.specs.Printing.{IsMadePrintout, printed};

use clr_desk_prints::{Print, RunFault};
use clr_engine::{Draft, Office};
use clr_lines::count_line;
use clr_office_reports::draft_of;
use clr_office_texts::{DraftText, KnownNeeds, write_office};
use clr_old_errors::add_rule_counts;
use std::alloc::{AllocError, Global};

/// An office, and the needs that its text names as known.
#[derive(Drop)]
pub struct KnownOffice {
    pub office: Office,
    pub known: KnownNeeds,
}

/// Returns the office of a draft, with all that is broken in it as known. It fails only for want of memory.
pub fn admitted(draft: Draft) -> Result<Office, AllocError>
    ensures { IfOk result (λ office. office ≡ draft) }
{
    let needs = draft.broken_needs()?;
    match draft.admit(needs.as_slice()) {
        Ok(office) => Ok(office),
        // (only for want of memory, since each broken need is known)
        Err(_) => Err(AllocError),
    }
}

/// Returns the office of a text, whatever is broken in it, and the needs that are known there. Fails with `BadOffice` where the text is no
/// office, and with `OutOfMemory` if memory runs out.
pub fn open_known(alloc: Global, text: &[u8]) -> Result<KnownOffice, RunFault>
    ensures office { IfOk result (λ opened. draft_in text.now ≡ Ok opened.office) }
    ensures known { IfOk result (λ opened. opened.known ≡ known_in text.now) }
    ensures fault { IfErr result (IsOfficeFault (draft_in text.now)) }
{
    let DraftText { draft, known } = draft_of(alloc, text)?;
    let office = admitted(draft)?;
    Ok(KnownOffice { office, known })
}

/// Returns the text of an office with just its broken needs as known, ended by `\n`.
fn accepted_office(alloc: Global, office: &Office) -> Result<Vec<u8>, AllocError>
    ensures { IfOk result (λ text. IsAccepted office.now text.items) }
{
    let _standing = office.len();
    let mut text = write_office(alloc, office)?;
    text.push(b'\n')?;
    Ok(text)
}

/// Returns how many needs are accepted, in all and of each rule that has some, a line each.
fn accepted_lines(alloc: Global, office: &Office) -> Result<Vec<u8>, AllocError>
    ensures { IfOk result (λ lines. lines.items ≡ accepted_text office.now) }
{
    let _standing = office.len();
    let needs = office.broken_needs()?;
    let mut lines = count_line(alloc, "accepted", needs.as_slice().len())?;
    add_rule_counts(
        alloc,
        &mut lines,
        office.schema(),
        office.book(),
        needs.as_slice(),
    )?;
    Ok(lines)
}

/// Returns the text of an office with just its broken needs as known, and as notes how many needs these are, in all and of each rule that has
/// some.
pub fn accepted_print(alloc: Global, draft: Draft) -> Result<Print, AllocError>
    ensures { IfOk result (λ p. IsAcceptedPrint draft (printed p)) }
{
    let office = admitted(draft)?;
    let text = accepted_office(alloc, &office)?;
    let notes = accepted_lines(alloc, &office)?;
    Ok(Print::new(text, notes, false, false))
}

/// Returns what is printed of an office with its errors accepted.
fn accept_print(alloc: Global, office: &Office) -> Result<Print, AllocError>
    ensures { IfOk result (λ p. IsAcceptPrint office.now (printed p)) }
{
    let text = accepted_office(alloc, office)?;
    Ok(Print::of_text(alloc, text))
}

/// Returns an office text: that of the given office, with just those needs as known that are broken in LIVE or in a workspace that is kept,
/// whether the given text knows them or not. Fails with `BadOffice` where the text is no office, and with `OutOfMemory` for want of memory,
/// which may come in place of any other answer.
pub fn answer_accept(alloc: Global, office: &[u8]) -> Result<Print, RunFault>
    ensures { IsMadePrintout (IsPrintoutOfDraft IsAcceptPrint (draft_in office.now)) result }
{
    let opened = open_known(alloc, office)?;
    Ok(accept_print(alloc, &opened.office)?)
}
