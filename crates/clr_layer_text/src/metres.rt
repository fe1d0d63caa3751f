//! Whole millimetres, read from decimal numbers of metres.

ghost use Rattle.std.specs.Prelude.{◌≡◌, ◌<◌, ◌≤◌, ◌^◌, IfOk};
ghost use Rattle.clr_records.specs.Decimals.{number_of};
ghost use Rattle.clr_layer_text.specs.Metres.{around_point, behind_point, digit_at, is_digit, is_finer, millimetres_of, nearest, thousandths};
ghost use Rattle.clr_layer_text.specs.Metres.{unsigned_of, whole_metres_of};
ghost use Rattle.std.specs.List.{list_all};
ghost use Rattle.clr_layer_text.specs.Pieces.{cut_of};

use crate::faults::LayerFault;
use crate::limits::MOST_METRES;
use crate::pieces::cut;
use clr_records::read_number;
use clr_rows::RowFault;

/// Returns the whole metres of a text. Fails with `NotDecimal` where it isn't a number of 0 or more in
/// its one form, and with `OutOfRange` where it is above 1,000,000,000.
fn whole_metres(text: &str) -> Result<u64, LayerFault>
    ensures value { result ≡ whole_metres_of (number_of text.now) }
    ensures small { IfOk result (λ n. n ≤ MOST_METRES) }
{
    let Some(number) = read_number(text) else {
        return Err(LayerFault::NotDecimal);
    };
    match u64::try_from(number) {
        Err(_) => Err(LayerFault::NotDecimal),
        Ok(metres) if metres <= MOST_METRES => Ok(metres),
        Ok(_) => Err(LayerFault::Unfit(RowFault::OutOfRange)),
    }
}

/// Returns the digit at a place behind the point, 0 where none is written.
fn digit(digits: &str, at: usize) -> u64
    ensures value { result ≡ digit_at digits.now at }
    ensures small { result < 256 }
{
    match digits.as_bytes().get(at) {
        Some(digit) => (*digit).saturating_sub(b'0') as u64,
        None => 0,
    }
}

/// Returns the millimetres that stand behind the point.
fn thousandths(digits: &str) -> u64
    ensures value { result ≡ thousandths digits.now }
    ensures small { result < 2 ^ 16 }
{
    100 * digit(digits, 0) + 10 * digit(digits, 1) + digit(digits, 2)
}

fn is_digit(byte: u8) -> bool
    ensures { result ≡ is_digit byte }
{
    b'0' <= byte && byte <= b'9'
}

/// Returns whether all bytes of a text are digits.
fn are_digits(text: &str) -> bool
    ensures { result ≡ list_all is_digit text.now }
{
    text.as_bytes().iter().all(|byte| is_digit(*byte))
}

/// Returns whether a digit other than 0 stands behind the third.
fn is_finer(digits: &str) -> bool
    ensures { result ≡ is_finer digits.now }
{
    digits.as_bytes().iter().skip(3).any(|digit| *digit != b'0')
}

/// Returns the digits behind the point as millimetres, a half rounded up.
fn nearest_thousandths(digits: &str) -> u64
    ensures value { result ≡ nearest digits.now }
    ensures small { result ≤ 2 ^ 16 }
{
    if digit(digits, 3) >= 5 {
        thousandths(digits) + 1
    } else {
        thousandths(digits)
    }
}

/// Returns the digits behind the point as millimetres. Fails with `NotDecimal` where they aren't all
/// digits, and with `Finer` where they are finer than a millimetre and aren't to be rounded.
fn behind_point(rounded: bool, digits: &str) -> Result<u64, LayerFault>
    ensures value { result ≡ behind_point rounded digits.now }
    ensures small { IfOk result (λ n. n ≤ 2 ^ 16) }
{
    if !are_digits(digits) {
        Err(LayerFault::NotDecimal)
    } else if is_finer(digits) && !rounded {
        Err(LayerFault::Finer)
    } else {
        Ok(nearest_thousandths(digits))
    }
}

/// Returns the millimetres of a number of metres without a sign.
#[tactic(auto, unfolding(crate::specs::Metres::unsigned_of))]
fn unsigned_millimetres(rounded: bool, text: &str) -> Result<u64, LayerFault>
    ensures value { result ≡ unsigned_of rounded text.now }
    ensures small { IfOk result (λ n. n < 2 ^ 62) }
{
    let (front, digits) = match cut(text, '.') {
        Some(parts) => parts,
        None => (text, ""),
    };
    let metres = whole_metres(front)?;
    let behind = behind_point(rounded, digits)?;
    Ok(metres * 1000 + behind)
}

/// Returns the millimetres of a decimal number of metres, by its digits. What is finer than a millimetre
/// is rounded, a half away from 0, or refused. Fails with `NotDecimal` where the text is another than
/// an optional `-`, a whole number in its one form and an optional `.` with digits behind it, with
/// `OutOfRange` where there are more than 1,000,000,000 whole metres, and with `Finer` where it is finer
/// than a millimetre and isn't to be rounded.
#[tactic(auto, unfolding(crate::specs::Metres::millimetres_of))]
pub(crate) fn millimetres(rounded: bool, text: &str) -> Result<i64, LayerFault>
    ensures { result ≡ millimetres_of rounded text.now }
{
    match cut(text, '-') {
        None => Ok(unsigned_millimetres(rounded, text)? as i64),
        Some((front, behind)) if front.is_empty() => Ok(
            -(unsigned_millimetres(rounded, behind)? as i64),
        ),
        Some(_) => Err(LayerFault::NotDecimal),
    }
}
