//! What a search finds.

/// What the search for an order says.
#[derive(Debug, Drop)]
pub enum OrderSearch {
    /// The first order that works, by the numbers of members: no need is broken before the first
    /// merge or after any.
    Found(Vec<u16>),
    /// Each order of all members breaks a need on the way.
    NoneWorks,
    /// There are more members than `MOST_SEARCHED`; nothing is said of their orders.
    TooMany,
}
