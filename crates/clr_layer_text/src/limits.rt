//! The words and limits of layers.

ghost use Rattle.std.specs.Prelude.{◌≡◌, codes};

/// The name of the field that holds a row's shape.
pub const SHAPE: &str = "WKT";

/// The greatest whole number of metres that a coordinate is read from, 1,000,000,000.
pub(crate) const MOST_METRES: u64 = 1_000_000_000;

/// The name of the field and the greatest number of metres are these.
pub fn limits_of_layers()
    ensures shape { SHAPE.now ≡ codes "WKT" }
    ensures metres { MOST_METRES ≡ 1000000000 }
{}
