//! How far an origin may be.

ghost use Rattle.std.specs.Prelude.{◌≡◌};

/// The greatest size of a coordinate of an origin, in metres.
pub const MOST_ORIGIN_METRES: u64 = 1_000_000_000;

/// The greatest size is this.
pub fn limit_of_origins()
    ensures { MOST_ORIGIN_METRES ≡ 1_000_000_000 }
{}
