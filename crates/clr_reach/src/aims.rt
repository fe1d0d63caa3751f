//! What cuts are made for.

/// What a cut is made for.
#[derive(Clone, Copy, Debug, PartialEq, Eq)]
pub enum Aim {
    /// For plans and checks of its members: the cut has all in its reach.
    Plans,
    /// For groups of its members too: the cut has all rows that are tied to a member besides.
    Groups,
}
