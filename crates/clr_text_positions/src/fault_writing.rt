//! The lines of a fault, and its line in short.
ghost use Rattle.std.specs.Prelude.{◌≡◌, ◌++◌, ◌≤◌, codes, length, string_bytes, IfOk, OnOk};
ghost use Rattle.clr_text_positions.specs.FaultLines.{AreFaultLines, hint_line, place_line, short_line};

use crate::marked_lines::marked_line;
use crate::places::place_of;
use crate::remarks::Remark;
use std::alloc::{AllocError, Global};

/// Returns `at line L, column C`, and what else is said of the place.
fn place_line(alloc: Global, text: &[u8], remark: &Remark) -> Result<String, AllocError>
    requires { remark.now.offset ≤ length text.now }
    ensures { IfOk result (λ line. string_bytes line ≡ place_line text.now remark.now) }
{
    let place = place_of(text, remark.offset);
    let line = place.line;
    let column = place.column;
    let said = remark.place.as_str();
    let line = format!(in alloc; "at line {line}, column {column}{said}\n")?;
    Ok(line)
}

/// Adds the line of a hint, where there is one.
fn add_hint(lines: &mut Vec<u8>, hint: &Option<String>) -> Result<(), AllocError>
    ensures { OnOk result (lines.new.items ≡ lines.old.items ++ hint_line hint.now) }
{
    if let Some(hint) = hint {
        lines.extend_from_slice(b"hint: ")?;
        lines.extend_from_slice(hint.as_bytes())?;
        lines.extend_from_slice(b"\n")?;
    }
    Ok(())
}

/// Returns the lines of a fault of a text: its name, its place, the line of the text with a mark, the sentence, and a hint where
/// there is one.
pub fn fault_lines(
    alloc: Global,
    text: &[u8],
    name: &str,
    remark: &Remark,
) -> Result<Vec<u8>, AllocError>
    requires { remark.now.offset ≤ length text.now }
    ensures lines { IfOk result (λ lines. AreFaultLines text.now name.now remark.now lines.items) }
{
    let place = place_line(alloc, text, remark)?;
    let marked = marked_line(alloc, text, remark.offset)?;
    let mut lines = Vec::from_slice(alloc, name.as_bytes())?;
    lines.extend_from_slice(b"\n")?;
    lines.extend_from_slice(place.as_bytes())?;
    lines.extend_from_slice(marked.as_bytes())?;
    lines.extend_from_slice(remark.sentence.as_bytes())?;
    lines.extend_from_slice(b"\n")?;
    add_hint(&mut lines, &remark.hint)?;
    Ok(lines)
}

/// Returns the line of a fault in short: the name of the file, the line, the column, and the sentence, with colons between them.
pub fn short_line(
    alloc: Global,
    text: &[u8],
    file: &str,
    remark: &Remark,
) -> Result<Vec<u8>, AllocError>
    requires { remark.now.offset ≤ length text.now }
    ensures line { IfOk result (λ line. line.items ≡ short_line text.now file.now remark.now) }
{
    let place = place_of(text, remark.offset);
    let line = place.line;
    let column = place.column;
    let sentence = remark.sentence.as_str();
    let line = format!(in alloc; "{file}:{line}:{column}: {sentence}\n")?;
    Ok(line.into_bytes())
}
