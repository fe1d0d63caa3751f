//! The limit of the search.

ghost use Rattle.std.specs.Prelude.{◌≡◌};

/// The most members among whose orders the search looks for one.
pub const MOST_SEARCHED: u16 = 16;

/// The limit of searched members is this.
pub fn limit_of_searches()
    ensures searched { MOST_SEARCHED ≡ 16 }
{}
