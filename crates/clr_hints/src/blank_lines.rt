//! Blank lines among the records of a text.

ghost use Rattle.std.specs.Prelude.{◌≡◌, ◌&&◌, not, option_map, string_bytes, IfOk};
ghost use Rattle.clr_text_positions.specs.Places.{is_line_end};
ghost use Rattle.clr_hints.specs.BlankLines.{blank_lines_hint, is_carriage_return};

use std::alloc::{AllocError, Global};

/// Tests whether a line ends at a byte, of which nothing stands before it.
fn ends_blank_line(is_line_begun: bool, byte: u8) -> bool
    ensures { result ≡ is_line_end byte && not is_line_begun }
{
    byte == b'\n' && !is_line_begun
}

fn is_carriage_return(byte: u8) -> bool
    ensures { result ≡ is_carriage_return byte }
{
    byte == b'\r'
}

/// Returns a hint on how records are counted where blank lines stand in a text, else none. A line is blank where nothing but
/// carriage returns stands before its line feed.
pub fn blank_lines_hint(alloc: Global, text: &[u8]) -> Result<Option<String>, AllocError>
    ensures { IfOk result (λ hint. option_map string_bytes hint ≡ blank_lines_hint text.now) }
{
    let mut is_line_begun = false;
    for byte in text {
        if ends_blank_line(is_line_begun, *byte) {
            return Ok(Some(String::from_str(
                alloc,
                "blank lines are no records and aren't counted",
            )?));
        }
        if !is_carriage_return(*byte) {
            is_line_begun = *byte != b'\n';
        }
    }
    Ok(None)
}
