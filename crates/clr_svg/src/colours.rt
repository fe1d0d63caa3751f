//! Colours.

ghost use Rattle.std.specs.Prelude.{◌≡◌, ◌++◌, ◌<◌, OnOk};
ghost use Rattle.clr_svg.specs.Numbers.{colour_text, hex_digit, hex_text};

use std::alloc::AllocError;

/// A colour by its red, green and blue, each 0 to 255.
#[derive(Clone, Copy)]
pub struct Colour {
    pub red: u8,
    pub green: u8,
    pub blue: u8,
}

impl Colour {
    /// Returns the colour of these parts.
    pub const fn new(red: u8, green: u8, blue: u8) -> Colour
        ensures { result ≡ record { red = red; green = green; blue = blue } }
    {
        Colour { red, green, blue }
    }
}

fn hex_digit(number: u8) -> u8
    requires { number < 16 }
    ensures { result ≡ hex_digit number }
{
    if number < 10 {
        b'0' + number
    } else {
        b'a' + (number - 10)
    }
}

fn add_hex(text: &mut Vec<u8>, number: u8) -> Result<(), AllocError>
    ensures { OnOk result (text.new.items ≡ text.old.items ++ hex_text number) }
{
    text.push(hex_digit(number / 16))?;
    text.push(hex_digit(number % 16))?;
    Ok(())
}

/// Adds a colour, as `#0072b2`.
#[tactic(auto, unfolding(crate::specs::Numbers::colour_text))]
pub fn add_colour(text: &mut Vec<u8>, colour: Colour) -> Result<(), AllocError>
    ensures { OnOk result (text.new.items ≡ text.old.items ++ colour_text colour) }
{
    text.extend_from_slice(b"#")?;
    add_hex(text, colour.red)?;
    add_hex(text, colour.green)?;
    add_hex(text, colour.blue)
}
