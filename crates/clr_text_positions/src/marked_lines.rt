//! The line of a text that a byte stands in, with a mark under that byte.
ghost use Rattle.std.specs.Prelude.{◌≤◌, length};

use crate::places::{line_around, place_of};
use std::alloc::{AllocError, Global};

/// The most characters of a line that are shown.
const MOST_CHARACTERS: usize = 90;

/// The most characters that are shown before the place.
const MOST_BEFORE: usize = 40;

/// Returns the characters of a line; where it isn't UTF-8, a sign for each of its bytes beyond
/// ASCII.
fn readable_text(alloc: Global, line: &[u8]) -> Result<String, AllocError> {
    if let Ok(text) = str::from_utf8(line) {
        return String::from_str(alloc, text);
    }
    let mut text = String::new(alloc);
    for byte in line {
        text.push(if *byte < 128 { char::from(*byte) } else { '?' })?;
    }
    Ok(text)
}

/// Adds the characters of a line from one on, and control characters as blanks.
fn add_characters(lines: &mut String, line: &str, first: usize) -> Result<(), AllocError> {
    for character in line.chars().skip(first).take(MOST_CHARACTERS) {
        lines.push(if character.is_control() {
            ' '
        } else {
            character
        })?;
    }
    Ok(())
}

/// Adds blanks.
fn add_blanks(lines: &mut String, count: usize) -> Result<(), AllocError> {
    for _ in 0..count {
        lines.push(' ')?;
    }
    Ok(())
}

/// Returns the line around a byte of a text behind a bar, and on a second line a mark under the byte.
pub fn marked_line(alloc: Global, text: &[u8], offset: usize) -> Result<String, AllocError>
    requires { offset ≤ length text.now }
{
    let (start, end) = line_around(text, offset);
    let shown = readable_text(alloc, &text[start..end])?;
    let before = place_of(text, offset).column.saturating_sub(1);
    let first = before.saturating_sub(MOST_BEFORE);
    let mut lines = String::from_str(alloc, "  | ")?;
    add_characters(&mut lines, shown.as_str(), first)?;
    lines.push_str("\n  | ")?;
    add_blanks(&mut lines, before.saturating_sub(first))?;
    lines.push_str("^\n")?;
    Ok(lines)
}
