//! What is said of a record of a script or of a certificate.
ghost use Rattle.std.specs.Prelude.{◌≡◌, ◌≤◌, [], codes, length, string_bytes, IfOk};
ghost use Rattle.clr_record_explanations.specs.RecordRemarks.{record_place};

use crate::record_slips::RecordSlip;
use clr_hints::{blank_lines_hint, encoding_fault};
use clr_text_positions::{Remark, field_at};
use std::alloc::{AllocError, Global};

/// Returns where a field of a record begins, or else the record, or else the text.
fn offset_of(text: &[u8], number: usize, field: usize) -> usize
    ensures { result ≤ length text.now }
{
    match (field_at(text, number, field), field_at(text, number, 0)) {
        (Some(offset), _) => offset,
        (None, Some(offset)) => offset,
        (None, None) => 0,
    }
}

/// Returns the hint that there is, or else one at blank lines.
fn hint_or_blank_lines(
    alloc: Global,
    text: &[u8],
    hint: Option<String>,
) -> Result<Option<String>, AllocError> {
    match hint {
        Some(hint) => Ok(Some(hint)),
        None => blank_lines_hint(alloc, text),
    }
}

/// Returns the remark that a slip of a record makes.
pub fn remark_on_record(
    alloc: Global,
    text: &[u8],
    number: usize,
    slip: RecordSlip,
) -> Result<Remark, AllocError>
    ensures within { IfOk result (λ remark. remark.offset ≤ length text.now) }
    ensures place { IfOk result (λ remark. string_bytes remark.place ≡ record_place number) }
    ensures sentence { IfOk result (λ remark. remark.sentence ≡ slip.sentence) }
{
    let RecordSlip {
        field,
        sentence,
        hint,
    } = slip;
    let offset = offset_of(text, number, field);
    let place = format!(in alloc; ", record {number}")?;
    let hint = hint_or_blank_lines(alloc, text, hint)?;
    Ok(Remark {
        offset,
        place,
        sentence,
        hint,
    })
}

/// Returns what is said of a text that isn't UTF-8.
pub fn remark_on_encoding(alloc: Global, text: &[u8]) -> Result<Remark, AllocError>
    ensures within { IfOk result (λ remark. remark.offset ≤ length text.now) }
    ensures place { IfOk result (λ remark. string_bytes remark.place ≡ []) }
    ensures sentence { IfOk result (λ remark. string_bytes remark.sentence ≡ codes "a byte that isn't UTF-8") }
{
    let offset = match encoding_fault(text) {
        Some(offset) => offset,
        None => 0,
    };
    Ok(Remark {
        offset,
        place: String::new(alloc),
        sentence: String::from_str(alloc, "a byte that isn't UTF-8")?,
        hint: Some(String::from_str(alloc, "save the file as UTF-8")?),
    })
}
