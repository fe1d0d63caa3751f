//! Lines and columns of texts.

ghost use Rattle.std.specs.Prelude.{◌≡◌, ◌+◌, ◌-◌, ◌<◌, ◌≤◌, length, take, drop, position, reverse, count_by, IfSome};
ghost use Rattle.clr_text_positions.specs.Places.{begins_character, is_line_end, last_line, last_line_length, next_line_length};

/// A place in a text: its line and its column, both counted from 1. A column is a character.
#[derive(Clone, Copy, Debug, PartialEq, Eq)]
pub struct TextPlace {
    pub line: usize,
    pub column: usize,
}

/// Returns whether a byte begins a character of UTF-8: all do but those from 128 to 191.
fn begins_character(byte: u8) -> bool
    ensures { result ≡ begins_character byte }
{
    byte < 128 || 191 < byte
}

/// Returns where the last line end stands, counted backwards from the end of the text.
fn last_line_end(text: &[u8]) -> Option<usize>
    ensures value { result ≡ position is_line_end (reverse text.now) }
    ensures bound { IfSome result (λ count. count < length text.now) }
{
    text.iter().rev().position(|byte| *byte == b'\n')
}

/// Returns where the first line end stands, `\n`, or none where there is none.
pub fn first_line_end(text: &[u8]) -> Option<usize>
    ensures value { result ≡ position is_line_end text.now }
    ensures bound { IfSome result (λ count. count < length text.now) }
{
    text.iter().position(|byte| *byte == b'\n')
}

/// Returns how many bytes stand behind the last line end, or in the whole text where there is none.
fn last_line_length(text: &[u8]) -> usize
    ensures value { result ≡ last_line_length text.now }
    ensures bound { result ≤ length text.now }
{
    match last_line_end(text) {
        Some(count) => count,
        None => text.len(),
    }
}

/// Returns how many bytes stand before the first line end, or in the whole text where there is
/// none.
pub fn first_line_length(text: &[u8]) -> usize
    ensures value { result ≡ next_line_length text.now }
    ensures bound { result ≤ length text.now }
{
    match first_line_end(text) {
        Some(end) => end,
        None => text.len(),
    }
}

fn line_ends(text: &[u8]) -> usize
    ensures value { result ≡ count_by is_line_end text.now }
    ensures bound { result ≤ length text.now }
{
    text.iter().filter(|byte| **byte == b'\n').count()
}

fn characters(text: &[u8]) -> usize
    ensures value { result ≡ count_by begins_character text.now }
    ensures bound { result ≤ length text.now }
{
    text.iter().filter(|byte| begins_character(**byte)).count()
}

/// Returns the line and the column of a byte of a text, or of its end. Lines end at `\n`.
pub fn place_of(text: &[u8], offset: usize) -> TextPlace
    requires { offset ≤ length text.now }
    ensures line { result.line ≡ count_by is_line_end (take offset text.now) + 1 }
    ensures column { result.column ≡ count_by begins_character (last_line (take offset text.now)) + 1 }
{
    let before = &text[..offset];
    let start = offset - last_line_length(before);
    TextPlace {
        line: line_ends(before) + 1,
        column: characters(&before[start..]) + 1,
    }
}

/// Returns where the line begins in which a byte of a text stands, and where it ends, without its
/// `\n`.
pub fn line_around(text: &[u8], offset: usize) -> (usize, usize)
    requires { offset ≤ length text.now }
    ensures start { result.0 ≡ offset - last_line_length (take offset text.now) }
    ensures end { result.1 ≡ offset + next_line_length (drop offset text.now) }
    ensures order { result.0 ≤ offset }
    ensures bound { result.1 ≤ length text.now }
{
    let start = offset - last_line_length(&text[..offset]);
    let end = offset + first_line_length(&text[offset..]);
    (start, end)
}
