//! How numbers are written.

ghost use Rattle.std.specs.Prelude.{◌≡◌, ◌++◌, OnOk};
ghost use Rattle.clr_svg.specs.Numbers.{attribute, colour_text, pair_text, pixels_text, sign_text, tenth_text};

use crate::colours::{Colour, add_colour};
use crate::pixels::Pixels;
use itoa::Buffer;
use std::alloc::AllocError;

fn add_sign(text: &mut Vec<u8>, number: i64) -> Result<(), AllocError>
    ensures { OnOk result (text.new.items ≡ text.old.items ++ sign_text number) }
{
    if number.is_negative() {
        return text.extend_from_slice(b"-");
    }
    Ok(())
}

fn add_tenth(text: &mut Vec<u8>, tenth: u64) -> Result<(), AllocError>
    ensures { OnOk result (text.new.items ≡ text.old.items ++ tenth_text tenth) }
{
    if tenth == 0 {
        return Ok(());
    }
    text.extend_from_slice(b".")?;
    text.extend_from_slice(Buffer::new().format(tenth).as_bytes())
}

/// Adds a length, as `12.5`.
#[tactic(auto, unfolding(crate::specs::Numbers::pixels_text))]
pub(crate) fn add_pixels(text: &mut Vec<u8>, length: Pixels) -> Result<(), AllocError>
    ensures { OnOk result (text.new.items ≡ text.old.items ++ pixels_text length) }
{
    let size = length.tenths.unsigned_abs();
    add_sign(text, length.tenths)?;
    text.extend_from_slice(Buffer::new().format(size / 10).as_bytes())?;
    add_tenth(text, size % 10)
}

/// Adds two lengths, as `12.5 30`.
#[tactic(auto, unfolding(crate::specs::Numbers::pair_text))]
pub(crate) fn add_pair(text: &mut Vec<u8>, first: Pixels, second: Pixels) -> Result<(), AllocError>
    ensures { OnOk result (text.new.items ≡ text.old.items ++ pair_text first second) }
{
    add_pixels(text, first)?;
    text.extend_from_slice(b" ")?;
    add_pixels(text, second)
}

/// Adds an attribute whose value is a fixed word.
#[tactic(auto, unfolding(crate::specs::Numbers::attribute))]
pub(crate) fn add_word(text: &mut Vec<u8>, name: &str, word: &str) -> Result<(), AllocError>
    ensures { OnOk result (text.new.items ≡ text.old.items ++ attribute name.now word.now) }
{
    text.extend_from_slice(b" ")?;
    text.extend_from_slice(name.as_bytes())?;
    text.extend_from_slice(b"=\"")?;
    text.extend_from_slice(word.as_bytes())?;
    text.extend_from_slice(b"\"")
}

/// Adds an attribute whose value is a length.
#[tactic(auto, unfolding(crate::specs::Numbers::attribute))]
pub(crate) fn add_length(text: &mut Vec<u8>, name: &str, length: Pixels) -> Result<(), AllocError>
    ensures { OnOk result (text.new.items ≡ text.old.items ++ attribute name.now (pixels_text length)) }
{
    text.extend_from_slice(b" ")?;
    text.extend_from_slice(name.as_bytes())?;
    text.extend_from_slice(b"=\"")?;
    add_pixels(text, length)?;
    text.extend_from_slice(b"\"")
}

/// Adds an attribute whose value is two lengths.
#[tactic(auto, unfolding(crate::specs::Numbers::attribute))]
pub(crate) fn add_lengths(
    text: &mut Vec<u8>,
    name: &str,
    first: Pixels,
    second: Pixels,
) -> Result<(), AllocError>
    ensures { OnOk result (text.new.items ≡ text.old.items ++ attribute name.now (pair_text first second)) }
{
    text.extend_from_slice(b" ")?;
    text.extend_from_slice(name.as_bytes())?;
    text.extend_from_slice(b"=\"")?;
    add_pair(text, first, second)?;
    text.extend_from_slice(b"\"")
}

/// Adds an attribute whose value is a colour.
#[tactic(auto, unfolding(crate::specs::Numbers::attribute))]
pub(crate) fn add_tint(text: &mut Vec<u8>, name: &str, colour: Colour) -> Result<(), AllocError>
    ensures { OnOk result (text.new.items ≡ text.old.items ++ attribute name.now (colour_text colour)) }
{
    text.extend_from_slice(b" ")?;
    text.extend_from_slice(name.as_bytes())?;
    text.extend_from_slice(b"=\"")?;
    add_colour(text, colour)?;
    text.extend_from_slice(b"\"")
}
