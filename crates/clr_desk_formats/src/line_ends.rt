//! Line ends in JSON texts.
ghost use Rattle.std.specs.Prelude.{◌≡◌, ◌++◌, ◌∷◌, [], IfOk, OnOk};
ghost use Rattle.clr_desk_formats.specs.LineEnds.{behind, ends_line, line_end_if, lined};

use std::alloc::{AllocError, Global};

/// How a JSON text goes on behind a byte: within a text, behind a `\` in one, or between texts.
#[derive(Clone, Copy, Drop)]
enum JsonState {
    Within,
    Escaped,
    Between,
}

/// Returns the place behind one more byte.
fn place_behind(place: JsonState, byte: u8) -> JsonState
    ensures { result ≡ behind place byte }
{
    match (place, byte) {
        (JsonState::Within, b'\\') => JsonState::Escaped,
        (JsonState::Within, b'"') => JsonState::Between,
        (JsonState::Within | JsonState::Escaped, _) => JsonState::Within,
        (JsonState::Between, b'"') => JsonState::Within,
        (JsonState::Between, _) => JsonState::Between,
    }
}

/// Returns whether a line ends between two bytes: before an object in a list, and before the end of a
/// list of objects.
fn is_line_end(place: JsonState, before: u8, byte: u8) -> bool
    ensures { result ≡ ends_line place before byte }
{
    match place {
        JsonState::Between => match byte {
            b'{' => before == b'[' || before == b',',
            b']' => before == b'}',
            _ => false,
        },
        _ => false,
    }
}

/// Adds a byte, behind the end of a line if one ends there.
fn add_byte(lines: &mut Vec<u8>, ends_line: bool, byte: u8) -> Result<(), AllocError>
    ensures { OnOk result (lines.new.items ≡ lines.old.items ++ line_end_if ends_line ++ byte ∷ []) }
{
    if ends_line {
        lines.push(b'\n')?;
    }
    lines.push(byte)?;
    Ok(())
}

/// Returns the bytes of a JSON text with line ends before each object in a list and before the end of a
/// list of objects.
pub(crate) fn with_line_ends(alloc: Global, text: &[u8]) -> Result<Vec<u8>, AllocError>
    ensures { IfOk result (λ lines. lines.items ≡ lined text.now) }
{
    let mut lines = Vec::with_capacity(alloc, text.len())?;
    let mut place = JsonState::Between;
    let mut before = b'\n';
    for byte in text {
        add_byte(&mut lines, is_line_end(place, before, *byte), *byte)?;
        place = place_behind(place, *byte);
        before = *byte;
    }
    Ok(lines)
}
