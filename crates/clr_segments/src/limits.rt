//! The limit of distances.

ghost use Rattle.std.specs.Prelude.{◌≡◌, pos};

/// The greatest distance that `near` is asked about, in millimetres.
pub const GREATEST_DISTANCE: i64 = 1_000_000;

/// The limit of distances is this.
pub fn limit_of_distances()
    ensures distance { GREATEST_DISTANCE ≡ pos 1_000_000 }
{}
