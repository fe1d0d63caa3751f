//! Lengths on a page.

ghost use Rattle.std.specs.Prelude.{◌≡◌};
ghost use Rattle.clr_svg.specs.Lengths.{half, length_of, minus, plus, times, whole};

use std::ops::{Add, Mul, Sub};

/// A length or a coordinate on a page, in tenths of a pixel. A sum, a difference or a product that isn't within 64 bits is the nearest
/// number that is.
#[derive(Clone, Copy, PartialEq, Eq, PartialOrd, Ord)]
pub struct Pixels {
    pub tenths: i64,
}

impl Pixels {
    /// No length.
    pub const ZERO: Pixels = Pixels { tenths: 0 };

    /// Returns a length of this many tenths of a pixel.
    pub const fn of_tenths(tenths: i64) -> Pixels
        ensures { result ≡ length_of tenths }
    {
        Pixels { tenths }
    }

    /// Returns a length of this many pixels.
    pub const fn whole(pixels: i64) -> Pixels
        ensures { result ≡ whole pixels }
    {
        Pixels {
            tenths: pixels.saturating_mul(10),
        }
    }

    /// Returns half of the length, towards zero.
    pub const fn half(self) -> Pixels
        ensures { result ≡ half self }
    {
        Pixels {
            tenths: self.tenths / 2,
        }
    }
}

impl Add for Pixels {
    type Output = Pixels;

    ghost add_gives = { λ a b c. c ≡ plus a b };

    fn add(self, other: Pixels) -> Pixels {
        Pixels {
            tenths: self.tenths.saturating_add(other.tenths),
        }
    }
}

impl Sub for Pixels {
    type Output = Pixels;

    ghost sub_gives = { λ a b c. c ≡ minus a b };

    fn sub(self, other: Pixels) -> Pixels {
        Pixels {
            tenths: self.tenths.saturating_sub(other.tenths),
        }
    }
}

impl Mul<i64> for Pixels {
    type Output = Pixels;

    ghost mul_gives = { λ a n c. c ≡ times a n };

    fn mul(self, times: i64) -> Pixels {
        Pixels {
            tenths: self.tenths.saturating_mul(times),
        }
    }
}
