//! The limit of members.

ghost use Rattle.std.specs.Prelude.{◌≡◌};

/// The most change sets of a scene.
pub const MOST_MEMBERS: usize = 255;

/// The limit of members is this.
pub fn limit_of_members()
    ensures members { MOST_MEMBERS ≡ 255 }
{}
