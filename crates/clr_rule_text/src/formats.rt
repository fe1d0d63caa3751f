//! The formats of office texts.

/// The format of an office text.
#[derive(Clone, Copy, Debug, PartialEq, Eq)]
pub enum Format {
    /// Format 1, without paths.
    First,
    /// Format 2, in which a table may have paths.
    Second,
    /// Format 3, in which a table may have paths and a workspace may be kept.
    Third,
    /// Format 4, which has what format 3 has, and in which a rule may name needs that are known to be broken.
    Fourth,
}
