//! Where a row of a cause stands.

/// Where a row of a cause stands. Members are numbered by position.
#[derive(Clone, Copy, Debug)]
pub enum Standing {
    /// In the root, and no member changes it.
    Stays,
    /// In the root, and this member has another row there.
    Changed(usize),
    /// In the root, and this member takes it away.
    Removed(usize),
    /// In this member, which brings it.
    New(usize),
    /// In the root when this member took it over.
    TakenOver(usize),
    /// In the root, as it is now.
    Now,
}
