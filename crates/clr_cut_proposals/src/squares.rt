//! The squares and spots of `clr_spots`, in SQL.

ghost use Rattle.std.specs.Prelude.{◌≡◌, ◌++◌, OnOk};
ghost use Rattle.std.specs.Fmt.{decimal};
ghost use Rattle.clr_metres.specs.Metres.{metres_text};
ghost use Rattle.clr_spots.specs.declared.limits.TheConstants.{MOST_SPOTS, SQUARE_SIDE};

use clr_metres::add_metres;
use itoa::Buffer;
use std::alloc::AllocError;

const SIDE: i64 = 100_000;

const SPOTS: usize = 64;

/// Adds the side of a square.
pub(crate) fn add_side(text: &mut Vec<u8>) -> Result<(), AllocError>
    ensures { OnOk result (text.new.items ≡ text.old.items ++ metres_text SQUARE_SIDE) }
{
    add_metres(text, SIDE)
}

/// Adds how many spots a row may have before it is wide.
pub(crate) fn add_most_spots(text: &mut Vec<u8>) -> Result<(), AllocError>
    ensures { OnOk result (text.new.items ≡ text.old.items ++ decimal MOST_SPOTS) }
{
    text.extend_from_slice(Buffer::new().format(SPOTS).as_bytes())
}
