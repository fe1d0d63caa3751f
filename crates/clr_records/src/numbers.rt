//! Whole numbers in decimal.

ghost use Rattle.std.specs.Prelude.{◌≡◌};
ghost use Rattle.clr_records.specs.Decimals.{number_of};

use itoa::Buffer;

/// Returns the number whose decimal a text is, in its one form: `0`, or an optional `-` and digits
/// without a leading zero, within 64 bits. Returns none for any other text, such as `+1`, `01` and
/// `-0`.
#[tactic(auto, using(crate::proofs::Decimals::unparsed))]
pub fn read_number(text: &str) -> Option<i64>
    ensures { result ≡ number_of text.now }
{
    match text.parse::<i64>() {
        Ok(number) if Buffer::new().format(number) == text => Some(number),
        _ => None,
    }
}
