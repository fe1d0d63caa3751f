//! Lengths and places in metres.

ghost use Rattle.std.specs.Prelude.{Some};
ghost use Rattle.clr_metres.specs.Metres.{metres_text};
ghost use Rattle.clr_phrases.specs.Places.{place_text};

use clr_rows::Place;
use std::fmt;

/// How many millimetres a metre has.
const MILLIMETRES: u64 = 1000;

/// A length in millimetres, which is shown in metres with three decimals, as `12.345`.
#[derive(Clone, Copy, Debug)]
pub struct Metres(pub i64);

impl fmt::Display for Metres {
    ghost output = { λ length. Some (metres_text length.0) };

    fn fmt<W: fmt::Write>(&self, f: &mut fmt::Formatter<W>) -> fmt::Result {
        let sign = if self.0 < 0 { "-" } else { "" };
        let size = self.0.unsigned_abs();
        let metres = size / MILLIMETRES;
        let rest = size % MILLIMETRES;
        let tenths = rest / 100;
        let hundredths = rest % 100 / 10;
        let thousandths = rest % 100 % 10;
        write!(f, "{sign}{metres}.{tenths}{hundredths}{thousandths}")
    }
}

/// A place, which is shown by its coordinates in metres, as `(5.000, -1.250)`.
#[derive(Clone, Copy, Debug)]
pub struct At(pub Place);

impl fmt::Display for At {
    ghost output = { λ at. Some (place_text at.0) };

    fn fmt<W: fmt::Write>(&self, f: &mut fmt::Formatter<W>) -> fmt::Result {
        let x = Metres(self.0.x);
        let y = Metres(self.0.y);
        write!(f, "({x}, {y})")
    }
}
