//! Where a text stops being JSON, and why.
ghost use Rattle.std.specs.Prelude.{◌≡◌, ◌+◌, ◌<◌, ◌≤◌, drop, length, IfSome};
ghost use Rattle.clr_text_positions.specs.Places.{next_line_length};
ghost use Rattle.clr_hints.specs.JsonFaults.{IsJsonFault, behind_line_ends, is_space, last_byte, may_begin_quoted, offset_at, quoted_fault_at, sentence_at};
ghost use Rattle.clr_hints.specs.JsonFaults.{sentence_of, told, told_at};

use crate::encodings::{encoding_fault, has_byte_order_mark};
use crate::quoted_texts::{QuotedFault, quoted_fault, quoted_hint, quoted_sentence};
use clr_text_positions::{first_line_end, first_line_length};

/// Where a text stops being JSON: the offset of the byte, a sentence, and a hint where one helps.
#[derive(Drop)]
pub struct JsonFault {
    pub offset: usize,
    pub sentence: &'static str,
    pub hint: Option<&'static str>,
}

/// Returns what stands behind the first line end, nothing where there is none.
fn behind_line_end(text: &[u8]) -> &[u8]
    ensures { result.now ≡ drop (next_line_length text.now + 1) text.now }
{
    match first_line_end(text) {
        Some(at) => &text[at + 1..],
        None => &text[text.len()..],
    }
}

/// Returns what stands behind a number of line ends, nothing where there are fewer.
fn behind_line_ends(text: &[u8], count: usize) -> &[u8]
    ensures value { result.now ≡ behind_line_ends count text.now }
    ensures bound { length result.now ≤ length text.now }
{
    let mut rest = text;
    for _passed in 0..count {
        if rest.is_empty() {
            return rest;
        }
        rest = behind_line_end(rest);
    }
    rest
}

/// Returns the offset of the byte at a line and a column of bytes, both counted from 1; where the
/// line is shorter its end, and where the text is, the end of that.
fn offset_of(text: &[u8], line: usize, column: usize) -> usize
    ensures value { result ≡ offset_at text.now line column }
    ensures bound { result ≤ length text.now }
{
    let rest = behind_line_ends(text, line.saturating_sub(1));
    let before = text.len() - rest.len();
    before + column.saturating_sub(1).min(first_line_length(rest))
}

fn is_space(byte: u8) -> bool
    ensures { result ≡ is_space byte }
{
    matches!(byte, b' ' | b'\t' | b'\n' | b'\r')
}

/// Returns the last byte of a text that is no white space.
fn last_byte(text: &[u8]) -> Option<u8>
    ensures { result ≡ last_byte text.now }
{
    let mut last = None;
    for byte in text {
        if !is_space(*byte) {
            last = Some(*byte);
        }
    }
    last
}

/// Returns what is said of a byte at which JSON stops, by the last byte before it that is no white space.
fn sentence_of(before: Option<u8>, byte: u8) -> &'static str
    ensures { result.now ≡ sentence_of before byte }
{
    match (before, byte) {
        (Some(b','), b']') => "a value was expected (the comma before ] is one too many)",
        (Some(b','), b'}') => "a key was expected (the comma before } is one too many)",
        (_, b'"' | b'{' | b'[' | b'0'..=b'9' | b'-') => "a comma or a closing bracket was expected",
        (_, b'\'') => "a text stands in double quotes",
        _ => "no JSON can stand here",
    }
}

/// Returns what is said where JSON stops at an offset.
fn sentence_at(text: &[u8], offset: usize) -> &'static str
    ensures { result.now ≡ sentence_at text.now offset }
{
    match text.get(offset) {
        Some(byte) => sentence_of(last_byte(&text[..offset]), *byte),
        None => "the text ends here, and the JSON value hasn't ended",
    }
}

/// Returns whether a text in quotes may begin behind a byte, the last one before it that is no white space.
fn may_begin_quoted(before: Option<u8>) -> bool
    ensures { result ≡ may_begin_quoted before }
{
    match before {
        Some(byte) => matches!(byte, b'[' | b'{' | b',' | b':'),
        None => true,
    }
}

/// Returns why the text in quotes that begins at an offset can't be read, and at which byte; none where none may begin there, or it can
/// be read.
fn quoted_fault_at(text: &[u8], offset: usize) -> Option<(usize, QuotedFault)>
    ensures value { result ≡ quoted_fault_at text.now offset }
    ensures bound { IfSome result (λ found. found.0 ≤ length text.now) }
{
    match text.get(offset) {
        Some(b'"') if may_begin_quoted(last_byte(&text[..offset])) => quoted_fault(
            text,
            offset + 1,
        ),
        _ => None,
    }
}

/// Returns what is told where JSON stops at an offset: where it stops within a text in quotes, what is wrong in that.
fn fault_at(text: &[u8], offset: usize) -> JsonFault
    requires { offset ≤ length text.now }
    ensures value { told result ≡ told_at text.now offset }
    ensures bound { result.offset ≤ length text.now }
{
    match quoted_fault_at(text, offset) {
        Some((place, fault)) => JsonFault {
            offset: place,
            sentence: quoted_sentence(fault),
            hint: Some(quoted_hint(fault)),
        },
        None => JsonFault {
            offset,
            sentence: sentence_at(text, offset),
            hint: None,
        },
    }
}

/// Returns where a text that is no JSON stops being JSON, which the reader of JSON tells by a line and a column of bytes, both counted from
/// 1; where that is within a text in quotes, the byte that can't stand there; of a text with a byte order mark, its first byte; and of one
/// that isn't UTF-8, the first byte that isn't.
pub fn json_fault(text: &[u8], line: usize, column: usize) -> JsonFault
    ensures fault { IsJsonFault text.now line column (told result) }
    ensures within { result.offset ≤ length text.now }
{
    if has_byte_order_mark(text) {
        return JsonFault {
            offset: 0,
            sentence: "a byte order mark stands before the text",
            hint: Some("save the file as UTF-8 without BOM"),
        };
    }
    if let Some(offset) = encoding_fault(text) {
        return JsonFault {
            offset,
            sentence: "a byte that isn't UTF-8",
            hint: Some("save the file as UTF-8"),
        };
    }
    fault_at(text, offset_of(text, line, column))
}
