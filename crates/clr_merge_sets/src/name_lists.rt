//! Lists of names that checks and plans look at.

ghost use Rattle.std.specs.Prelude.{◌≡◌, ◌<◌, ℕ, List, Some, length, map, slice_get};

use clr_rows::Names;

/// Names of workspaces in an order.
pub trait NameList {
    ghost names: { Self → List (List ℕ) };

    /// Returns how many names there are.
    fn len(&self) -> usize
        ensures { result ≡ length (names self.now) };

    /// Returns the name at a position below `len`.
    fn name_at(&self, position: usize) -> &str
        requires { position < length (names self.now) }
        ensures { slice_get (names self.now) position ≡ Some result.now };
}

impl NameList for Names {
    ghost names = { λ list. list };

    fn len(&self) -> usize {
        self.as_slice().len()
    }

    fn name_at(&self, position: usize) -> &str {
        self.as_slice()[position].as_str()
    }
}

impl NameList for &[&str] {
    ghost names = { λ list. map (λ name. name.now) list.now };

    fn len(&self) -> usize {
        (**self).len()
    }

    fn name_at(&self, position: usize) -> &str {
        (**self)[position]
    }
}
