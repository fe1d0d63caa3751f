//! The limits of certificates.

ghost use Rattle.std.specs.Prelude.{◌≡◌};

use clr_rows::MOST_VERTICES;

/// The greatest number of a part: that of the last part of a path of the most vertices.
pub const GREATEST_PART: u16 = MOST_VERTICES as u16 - 1;

/// How many fields each record of a certificate has.
pub(crate) const RECORD_FIELDS: usize = 6;

/// The limits of certificates are these.
pub fn limits_of_certificates()
    ensures parts { GREATEST_PART ≡ 31 }
    ensures fields { RECORD_FIELDS ≡ 6 }
{}
