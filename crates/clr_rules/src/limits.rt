//! The limits of a book.

ghost use Rattle.std.specs.Prelude.{◌≡◌, pos};

/// The most rules of a book.
pub const MOST_RULES: usize = 64;

/// The least distance of a rule `Near`, in millimetres. The greatest is that of `near`.
pub const LEAST_DISTANCE: i64 = 1;

/// The limits of a book are these.
pub fn limits_of_books()
    ensures rules { MOST_RULES ≡ 64 }
    ensures distance { LEAST_DISTANCE ≡ pos 1 }
{}
