//! Metres in place of millimetres.

ghost use Rattle.std.specs.Prelude.{◌≡◌, IfOk, option_map, string_bytes};
ghost use Rattle.std.specs.List.{list_all, list_any};
ghost use Rattle.clr_hints.specs.Metres.{around_point, is_decimal, is_digit, metres_hint, millimetres_of, moved, whole_number};

use std::alloc::{AllocError, Global};

/// How many decimals a whole number of millimetres has in metres.
const DECIMALS: usize = 3;

fn is_digit(byte: u8) -> bool
    ensures { result ≡ is_digit byte }
{
    b'0' <= byte && byte <= b'9'
}

/// Returns whether all bytes of a text are digits.
fn are_digits(text: &str) -> bool
    ensures { result ≡ list_all is_digit text.now }
{
    text.as_bytes().iter().all(|byte| is_digit(*byte))
}

/// Returns whether a digit stands in a text.
fn has_digit(text: &str) -> bool
    ensures { result ≡ list_any is_digit text.now }
{
    text.as_bytes().iter().any(|byte| is_digit(*byte))
}

/// Returns whether at most three digits stand behind a point, nothing but digits, and a digit before it
/// where none stands behind it.
fn is_decimal(whole: &str, decimals: &str) -> bool
    ensures { result ≡ is_decimal whole.now decimals.now }
{
    are_digits(decimals) && decimals.len() <= DECIMALS && (0 < decimals.len() || has_digit(whole))
}

/// Returns the digits with the point moved behind them, which is three places.
fn shift_point(alloc: Global, whole: &str, decimals: &str) -> Result<String, AllocError>
    ensures { IfOk result (λ digits. string_bytes digits ≡ moved whole.now decimals.now) }
{
    let mut digits = String::from_str(alloc, whole)?;
    digits.push_str(decimals)?;
    for _written in 0..DECIMALS.saturating_sub(decimals.len()) {
        digits.push_str("0")?;
    }
    Ok(digits)
}

/// Returns the whole number that a text is, with a sign or without one.
#[tactic(auto, unfolding(crate::specs::Metres::whole_number))]
fn whole_number(text: &str) -> Option<i64>
    ensures { result ≡ whole_number text.now }
{
    text.parse::<i64>().ok()
}

/// Returns what stands before the first point of a text, and behind it.
fn around_point(text: &str) -> Option<(&str, &str)>
    ensures { option_map (λ parts. (parts.0.now, parts.1.now)) result ≡ around_point text.now }
{
    text.split_once('.')
}

/// Returns the whole millimetres that a decimal number of metres is, where it is one with at most
/// three decimals.
fn millimetres_of(alloc: Global, text: &str) -> Result<Option<i64>, AllocError>
    ensures { IfOk result (λ millimetres. millimetres ≡ millimetres_of text.now) }
{
    let Some((whole, decimals)) = around_point(text) else {
        return Ok(None);
    };
    if !is_decimal(whole, decimals) {
        return Ok(None);
    }
    let digits = shift_point(alloc, whole, decimals)?;
    Ok(whole_number(digits.as_str()))
}

/// Returns a hint at the whole millimetres of a number with a fraction, which may be meant in metres, and none of any other text. Such
/// a number is an optional sign, digits, a point and at most three digits, at least one digit in all.
pub fn metres_hint(alloc: Global, text: &str) -> Result<Option<String>, AllocError>
    ensures { IfOk result (λ hint. option_map string_bytes hint ≡ metres_hint text.now) }
{
    match millimetres_of(alloc, text)? {
        Some(millimetres) => Ok(Some(format!(in alloc; "for metres write {millimetres}")?)),
        None => Ok(None),
    }
}
