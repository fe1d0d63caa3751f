//! Why an office text can't be used.
ghost use Rattle.std.specs.Prelude.{◌≡◌, IfErr, IfNone, IfOk, IfSome, IsOk, None, Ok};
ghost use Rattle.clr_engine.specs.BrokenNow.{AreBrokenNow};
ghost use Rattle.clr_engine.specs.Drafts.{unheld_in};
ghost use Rattle.clr_office_texts.specs.Drafts.{draft_in};
ghost use Rattle.clr_office_reading.specs.Offices.{known_in, office_in};
ghost use Rattle.clr_text_diagnosis.specs.Whys.{AreOfficeLines, IsOfficeWhy, IsRemarkedOfficeFault};

use crate::needs::{old_error_lines, unheld_lines};
use crate::whys::Why;
use clr_engine::{Broken, Draft};
use clr_explanations::{OfficeFault, explain_office, explain_standing, office_fault_words};
use clr_office_texts::{DraftText, TextFault, read_office};
use clr_text_positions::fault_lines;
use std::alloc::{AllocError, Global};

/// Returns the fault of the workspaces of a text that can be read, and what is said of it, or none where
/// they stand.
fn standing_fault(alloc: Global, text: &[u8]) -> Result<Option<OfficeFault>, AllocError>
    requires { IsOk (office_in text.now) }
    ensures none { IfOk result (λ found. IfNone found (IsOk (draft_in text.now))) }
    ensures told { IfOk result (λ found. IfSome found (λ f. IsRemarkedOfficeFault text.now f.fault f.remark)) }
{
    match explain_standing(alloc, text)? {
        Some(remark) => Ok(Some(OfficeFault {
            fault: TextFault::BadPart,
            remark,
        })),
        None => Ok(None),
    }
}

/// Returns the draft of a text that can be read, with its known needs, or the fault of its workspaces and what is said of it.
fn draft_or_standing_fault(
    alloc: Global,
    text: &[u8],
) -> Result<Result<DraftText, OfficeFault>, AllocError>
    requires { IsOk (office_in text.now) }
    ensures draft { IfOk result (λ found. IfOk found (λ read. draft_in text.now ≡ Ok read.draft)) }
    ensures known { IfOk result (λ found. IfOk found (λ read. read.known ≡ known_in text.now)) }
    ensures told { IfOk result (λ found. IfErr found (λ f. IsRemarkedOfficeFault text.now f.fault f.remark)) }
{
    if let Ok(read) = read_office(alloc, text) {
        return Ok(Ok(read));
    }
    match standing_fault(alloc, text)? {
        Some(found) => Ok(Err(found)),
        None => Err(AllocError),
    }
}

/// Returns the draft of an office text with its known needs, or its fault and what is said of it.
pub(crate) fn draft_or_fault(
    alloc: Global,
    text: &[u8],
) -> Result<Result<DraftText, OfficeFault>, AllocError>
    ensures draft { IfOk result (λ found. IfOk found (λ read. draft_in text.now ≡ Ok read.draft)) }
    ensures known { IfOk result (λ found. IfOk found (λ read. read.known ≡ known_in text.now)) }
    ensures told { IfOk result (λ found. IfErr found (λ f. IsRemarkedOfficeFault text.now f.fault f.remark)) }
{
    match explain_office(alloc, text)? {
        Some(found) => Ok(Err(found)),
        None => draft_or_standing_fault(alloc, text),
    }
}

/// Returns the lines of the fault of an office text.
#[tactic(auto, using(crate::proofs::RemarkLemmas::is_within))]
pub(crate) fn office_lines(
    alloc: Global,
    text: &[u8],
    found: &OfficeFault,
) -> Result<Vec<u8>, AllocError>
    requires { IsRemarkedOfficeFault text.now found.now.fault found.now.remark }
    ensures { IfOk result (λ lines. AreOfficeLines text.now lines.items) }
{
    let lines = fault_lines(alloc, text, office_fault_words(found.fault), &found.remark)?;
    Ok(lines)
}

/// Returns the needs that are broken in a draft in which each of these is known. Where none is known, none is broken, so none is looked for.
fn old_errors(alloc: Global, draft: &Draft, known: &[Broken]) -> Result<Vec<Broken>, AllocError>
    requires { unheld_in draft.now known.now ≡ None }
    ensures { IfOk result (λ needs. AreBrokenNow draft.now needs.items) }
{
    if known.is_empty() {
        return Ok(Vec::new(alloc));
    }
    let needs = draft.broken_needs()?;
    Ok(needs)
}

/// Returns what is found in a draft whose text names each of its broken needs as known: that there are none, or how many they are.
fn why_known(alloc: Global, draft: &Draft, known: &[Broken], text: &[u8]) -> Result<Why, AllocError>
    requires read { draft_in text.now ≡ Ok draft.now }
    requires names { known.now ≡ known_in text.now }
    requires known { unheld_in draft.now known.now ≡ None }
    ensures { IfOk result (IsOfficeWhy text.now) }
{
    let _text = text;
    let needs = old_errors(alloc, draft, known)?;
    if needs.is_empty() {
        return Ok(Why::NoFault);
    }
    let lines = old_error_lines(alloc, draft, needs.as_slice())?;
    Ok(Why::OldErrors(lines))
}

/// Returns what is found in a draft whose text names some needs as known.
fn why_draft(alloc: Global, draft: Draft, known: &[Broken], text: &[u8]) -> Result<Why, AllocError>
    requires read { draft_in text.now ≡ Ok draft }
    requires names { known.now ≡ known_in text.now }
    ensures { IfOk result (IsOfficeWhy text.now) }
{
    match draft.unheld(known)? {
        Some((position, need)) => {
            let lines = unheld_lines(alloc, &draft, position, &need)?;
            Ok(Why::Unheld(lines))
        }
        None => why_known(alloc, &draft, known, text),
    }
}

/// Returns what is found in an office text: that it is an office in which nothing is broken, the lines that count its broken needs
/// where all are known, those of a need that is broken and isn't known, or those of its fault.
pub fn why_office(alloc: Global, text: &[u8]) -> Result<Why, AllocError>
    ensures why { IfOk result (IsOfficeWhy text.now) }
{
    match draft_or_fault(alloc, text)? {
        Ok(read) => why_draft(alloc, read.draft, read.known.as_slice(), text),
        Err(found) => {
            let lines = office_lines(alloc, text, &found)?;
            Ok(Why::Faulty(lines))
        }
    }
}
