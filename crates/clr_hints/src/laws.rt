//! A law of the limits of hints, proved by a function that does nothing.

ghost use Rattle.std.specs.Prelude.{◌≡◌, ◌∷◌, [], Some, codes};
ghost use Rattle.std.specs.Float.Ieee.{binary64};
ghost use Rattle.std.specs.Float.Parse.{parse_float};
ghost use Rattle.clr_hints.specs.declared.encodings.TheConstants.{BYTE_ORDER_MARK};
ghost use Rattle.clr_hints.specs.declared.metres.TheConstants.{DECIMALS};
ghost use Rattle.clr_hints.specs.declared.names.TheConstants.{LEAST_LIKENESS, MOST_LISTED};
ghost use Rattle.clr_hints.specs.declared.values.TheConstants.{MOST_SHOWN};

/// The limits of hints and the byte order mark are these.
pub fn limits_of_hints()
    ensures mark { BYTE_ORDER_MARK.now ≡ 239 ∷ 187 ∷ 191 ∷ [] }
    ensures decimals { DECIMALS ≡ 3 }
    ensures likeness { parse_float binary64 (codes "0.8") ≡ Some LEAST_LIKENESS }
    ensures listed { MOST_LISTED ≡ 12 }
    ensures shown { MOST_SHOWN ≡ 40 }
{}
