//! Metres with three decimals.

ghost use Rattle.std.specs.Prelude.{◌≡◌, ◌++◌, OnOk};
ghost use Rattle.clr_metres.specs.Metres.{metres_text, unsigned_metres};

use itoa::Buffer;
use std::alloc::AllocError;

/// Adds a number of millimetres without a sign as metres.
fn add_unsigned(text: &mut Vec<u8>, size: u64) -> Result<(), AllocError>
    ensures { OnOk result (text.new.items ≡ text.old.items ++ unsigned_metres size) }
{
    text.extend_from_slice(Buffer::new().format(size / 1000).as_bytes())?;
    let behind = size % 1000;
    text.push(b'.')?;
    text.push(b'0' + (behind / 100) as u8)?;
    text.push(b'0' + (behind % 100 / 10) as u8)?;
    text.push(b'0' + (behind % 100 % 10) as u8)?;
    Ok(())
}

/// Adds a number of millimetres to a text as metres with three decimals, also where these are zeros, and with a `-` in front where it is
/// below 0. If memory runs out, part of the number may have been added.
pub fn add_metres(text: &mut Vec<u8>, millimetres: i64) -> Result<(), AllocError>
    ensures { OnOk result (text.new.items ≡ text.old.items ++ metres_text millimetres) }
{
    if millimetres < 0 {
        text.push(b'-')?;
    }
    add_unsigned(text, millimetres.unsigned_abs())
}
