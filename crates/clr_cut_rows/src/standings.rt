//! What a cut says of a row of the whole root.

/// What a cut says of a row of the whole root.
#[derive(Clone, Copy, Debug, PartialEq, Eq)]
pub enum Standing {
    /// The cut has the row.
    Has,
    /// The cut has another row at the cell.
    HasOther,
    /// The cut has no row at the cell, and the row belongs to it: a member changes the cell, or the
    /// row is found by its spots from the cut's versions.
    Lacks,
    /// The cut has no row at the cell, and needs none.
    Beyond,
}
