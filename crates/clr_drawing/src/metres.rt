//! Lengths of the world, as they are read: in metres.

ghost use Rattle.std.specs.Prelude.{◌≡◌, IfOk, string_bytes};
ghost use Rattle.clr_svg.specs.Numbers.{sign_text};
ghost use Rattle.clr_drawing.specs.Metres.{decimals, last_digits, round_metres_text, unsigned_text};

use std::alloc::{AllocError, Global};

/// Returns what stands before a number: a `-` where it is below 0.
fn sign_of(number: i64) -> &'static str
    ensures { result.now ≡ sign_text number }
{
    if number < 0 { "-" } else { "" }
}

/// Returns the hundredths and the thousandths of a metre, without a nought at the end.
#[tactic(auto, unfolding(crate::specs::Metres::last_digits))]
fn last_digits(alloc: Global, size: u64) -> Result<String, AllocError>
    ensures { IfOk result (λ text. string_bytes text ≡ last_digits size) }
{
    let hundredths = size % 100 / 10;
    let thousandths = size % 10;
    if thousandths == 0 {
        return format!(in alloc; "{hundredths}");
    }
    format!(in alloc; "{hundredths}{thousandths}")
}

/// Returns the point and the decimals of a length in metres that isn't whole, without noughts at the end.
#[tactic(auto, unfolding(crate::specs::Metres::decimals))]
fn decimals(alloc: Global, size: u64) -> Result<String, AllocError>
    ensures { IfOk result (λ text. string_bytes text ≡ decimals size) }
{
    let tenths = size % 1000 / 100;
    if size % 100 == 0 {
        return format!(in alloc; ".{tenths}");
    }
    let digits = last_digits(alloc, size)?;
    format!(in alloc; ".{tenths}{digits}")
}

/// Returns a length of millimetres in metres, with as many decimals as it needs.
#[tactic(auto, unfolding(crate::specs::Metres::unsigned_text))]
fn unsigned_metres(alloc: Global, size: u64) -> Result<String, AllocError>
    ensures { IfOk result (λ text. string_bytes text ≡ unsigned_text size) }
{
    let whole = size / 1000;
    if size % 1000 == 0 {
        return format!(in alloc; "{whole}");
    }
    let decimals = decimals(alloc, size)?;
    format!(in alloc; "{whole}{decimals}")
}

/// Returns a length of millimetres in metres, with as many decimals as it needs, as `-1.5` or `20`.
pub fn round_metres(alloc: Global, millimetres: i64) -> Result<String, AllocError>
    ensures { IfOk result (λ text. string_bytes text ≡ round_metres_text millimetres) }
{
    let sign = sign_of(millimetres);
    let size = unsigned_metres(alloc, millimetres.unsigned_abs())?;
    format!(in alloc; "{sign}{size}")
}
