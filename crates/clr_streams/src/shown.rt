//! Texts as a terminal shows them.

ghost use Rattle.std.specs.Prelude.{◌≡◌, false, true, IfOk};
ghost use Rattle.clr_streams.specs.Shown.{ShowableTextsStay, ShownTextsAreShowable, ends_control, ends_isolate, ends_turn, is_control, shown, shown_byte};

use std::alloc::{AllocError, Global};

/// Returns whether a byte is a control character, where the end of a line is none if lines are kept.
fn is_control(keeps_lines: bool, byte: u8) -> bool
    ensures { result ≡ is_control keeps_lines byte }
{
    (byte < 32 && !(keeps_lines && byte == b'\n')) || byte == 127
}

/// Returns whether a byte ends a control character of two bytes.
fn ends_control(before: u8, byte: u8) -> bool
    ensures { result ≡ ends_control before byte }
{
    128 <= byte && byte < 160 && before == 194
}

/// Returns whether a byte, behind two others, ends a character that turns a text or ends a line.
fn ends_turn(first: u8, second: u8, byte: u8) -> bool
    ensures { result ≡ ends_turn first second byte }
{
    (byte == 142 || byte == 143 || (168 <= byte && byte <= 174)) && first == 226 && second == 128
}

/// Returns whether a byte, behind two others, ends a character that turns a text on its own.
fn ends_isolate(first: u8, second: u8, byte: u8) -> bool
    ensures { result ≡ ends_isolate first second byte }
{
    166 <= byte && byte <= 169 && first == 226 && second == 129
}

/// Returns what stands in place of a byte behind two others: the end of a blank, where it ends a character that a terminal
/// obeys, and else itself.
pub(crate) fn shown_byte(keeps_lines: bool, first: u8, second: u8, byte: u8) -> u8
    ensures { result ≡ shown_byte keeps_lines first second byte }
{
    if is_control(keeps_lines, byte) {
        b' '
    } else if ends_control(second, byte) {
        160
    } else if ends_turn(first, second, byte) {
        175
    } else if ends_isolate(first, second, byte) {
        159
    } else {
        byte
    }
}

/// Returns a text with a blank in place of each character that a terminal obeys, where the ends of lines are kept or not.
fn show(alloc: Global, keeps_lines: bool, text: &[u8]) -> Result<Vec<u8>, AllocError>
    ensures { IfOk result (λ made. made.items ≡ shown keeps_lines text.now) }
{
    let mut made = Vec::with_capacity(alloc, text.len())?;
    let (mut first, mut second) = (0, 0);
    for byte in text {
        let shown = shown_byte(keeps_lines, first, second, *byte);
        made.push(shown)?;
        first = second;
        second = shown;
    }
    Ok(made)
}

/// Returns the lines of a text with a blank in place of each character that a terminal obeys.
/// For example, of `a`, an escape (27), `b` and a line end it returns `a b` and a line end.
pub fn show_lines(alloc: Global, text: &[u8]) -> Result<Vec<u8>, AllocError>
    ensures { IfOk result (λ made. made.items ≡ shown true text.now) }
{
    show(alloc, true, text)
}

/// Returns a text on one line, with a blank in place of each line end and of each other character that a terminal obeys.
pub fn show_on_one_line(alloc: Global, text: &[u8]) -> Result<Vec<u8>, AllocError>
    ensures { IfOk result (λ made. made.items ≡ shown false text.now) }
{
    show(alloc, false, text)
}

/// A text is shown so that a terminal obeys no character of it, and one that it doesn't obey is shown as it stands.
pub fn shown_texts_are_showable()
    ensures showable { ShownTextsAreShowable }
    ensures stays { ShowableTextsStay }
{}
