//! Numbers of spots. Cells are filed by them, since numbers are compared faster than texts. Rows of
//! other spots that have the same number are looked at too, and not found.

ghost use Rattle.std.specs.Prelude.{◌≡◌};
ghost use Rattle.std.specs.List.{fold, list_any};
ghost use Rattle.clr_grid.specs.SpotNumbers.{has_number, mix_in, mix_value, spot_number_of};

use clr_rows::Value;
use clr_spots::Spot;

/// By what a number is multiplied before another one is mixed in: 2^64 over the golden ratio.
pub(crate) const NUMBER_FACTOR: u64 = 0x9E37_79B9_7F4A_7C15;

/// What is mixed in after the bytes of a text.
pub(crate) const TEXT_END: u64 = 256;

/// Returns a number with another one mixed in.
fn mix_in(number: u64, more: u64) -> u64
    ensures { result ≡ mix_in number more }
{
    number.wrapping_mul(NUMBER_FACTOR).wrapping_add(more)
}

/// Returns a number with the bytes of a text mixed in.
fn mix_bytes(number: u64, bytes: &[u8]) -> u64
    ensures { result ≡ fold mix_in number bytes.now }
{
    let mut mixed = number;
    for byte in bytes {
        mixed = mix_in(mixed, *byte as u64);
    }
    mixed
}

/// Returns a number with a value mixed in.
fn mix_value(number: u64, value: &Value) -> u64
    ensures { result ≡ mix_value number value.now }
{
    match value {
        Value::Int(x) => mix_in(number, x.cast_unsigned()),
        Value::Words(text) => mix_in(mix_bytes(number, text.as_str().as_bytes()), TEXT_END),
    }
}

/// Returns a number with some values mixed in.
fn mix_values(number: u64, values: &[Value]) -> u64
    ensures { result ≡ fold mix_value number values.now }
{
    let mut mixed = number;
    for value in values {
        mixed = mix_value(mixed, value);
    }
    mixed
}

/// Returns the number of a spot.
#[tactic(auto, unfolding(crate::specs::SpotNumbers::spot_number_of))]
pub(crate) fn number_of(spot: &Spot) -> u64
    ensures { result ≡ spot_number_of spot.now }
{
    match spot {
        Spot::Square(i, j) => mix_in(i.cast_unsigned(), j.cast_unsigned()),
        Spot::Values(values) => mix_values(1, values.as_slice()),
    }
}

/// Returns whether some spot has a number.
pub(crate) fn have_number(spots: &[Spot], number: u64) -> bool
    ensures { result ≡ list_any (has_number number) spots.now }
{
    for spot in spots {
        if number_of(spot) == number {
            return true;
        }
    }
    false
}
