//! Texts in which no character is taken for markup, and none stands that XML forbids.

ghost use Rattle.std.specs.Prelude.{◌≡◌, ◌++◌, ◌<◌, drop, length, IfOk, OnOk};
ghost use Rattle.clr_svg.specs.Escapes.{begins_forbidden, escaped, escaped_behind, escaped_byte, is_control, is_forbidden, is_within};

use std::alloc::AllocError;

/// Returns whether a byte is a control character other than the end of a line.
fn is_control(byte: u8) -> bool
    ensures { result ≡ is_control byte }
{
    (byte < 32 && byte != b'\n') || byte == 127
}

fn add_byte(text: &mut Vec<u8>, byte: u8) -> Result<(), AllocError>
    ensures { OnOk result (text.new.items ≡ text.old.items ++ escaped_byte byte) }
{
    if byte == b'<' {
        text.extend_from_slice(b"&lt;")
    } else if byte == b'>' {
        text.extend_from_slice(b"&gt;")
    } else if byte == b'&' {
        text.extend_from_slice(b"&amp;")
    } else if byte == b'"' {
        text.extend_from_slice(b"&quot;")
    } else if byte == b'\'' {
        text.extend_from_slice(b"&apos;")
    } else if is_control(byte) {
        text.extend_from_slice(b" ")
    } else {
        text.extend_from_slice(&[byte])
    }
}

/// Returns whether a number is one of a range.
fn is_within(low: u8, high: u8, byte: u8) -> bool
    ensures { result ≡ is_within low high byte }
{
    low <= byte && byte <= high
}

/// Returns whether three bytes are U+FFFE, U+FFFF, or half of a pair of UTF-16.
fn is_forbidden(first: u8, second: u8, third: u8) -> bool
    ensures { result ≡ is_forbidden first second third }
{
    let is_none = first == 239 && second == 191 && is_within(190, 191, third);
    is_none || (first == 237 && is_within(160, 191, second) && is_within(128, 191, third))
}

/// Returns whether a text begins with a character of three bytes that XML forbids.
fn begins_forbidden(words: &[u8]) -> bool
    ensures { result ≡ begins_forbidden words.now }
{
    match words {
        [first, second, third, ..] => is_forbidden(*first, *second, *third),
        _ => false,
    }
}

/// Adds what stands for the next byte of a text, where so many bytes belong to a character for which a space stands
/// already. Returns how many of the bytes behind it do.
fn add_next(text: &mut Vec<u8>, count: usize, words: &[u8]) -> Result<usize, AllocError>
    requires { 0 < length words.now }
    ensures { IfOk result (λ left. text.new.items ++ escaped_behind left (drop 1 words.now) ≡ text.old.items ++ escaped_behind count words.now) }
{
    if count > 0 {
        return Ok(count - 1);
    }
    if begins_forbidden(words) {
        text.extend_from_slice(b" ")?;
        return Ok(2);
    }
    add_byte(text, words[0])?;
    Ok(0)
}

/// Adds a text, with references for `<`, `>`, `&` and quotation marks, and a space for each control character but the end of a line, and for
/// each other character that XML 1.0 forbids.
#[tactic(auto, unfolding(crate::specs::Escapes::escaped))]
pub fn add_escaped(text: &mut Vec<u8>, words: &[u8]) -> Result<(), AllocError>
    ensures { OnOk result (text.new.items ≡ text.old.items ++ escaped words.now) }
{
    let mut count = 0;
    for at in 0..words.len() {
        count = add_next(text, count, &words[at..])?;
    }
    Ok(())
}
