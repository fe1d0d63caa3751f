//! Certificates, and their entries.

use clr_needs::{Need, VersionId};
use clr_rows::{List, Names, Words};

/// A need, and the witnesses that cover it: one version that serves it alone, or two of which one
/// stands before a member's change and one after it.
#[derive(Clone, Copy, Debug, PartialEq, Eq)]
pub struct Entry {
    pub need: Need,
    pub one: VersionId,
    pub two: Option<VersionId>,
}

/// Entries of a certificate, in any order.
pub type Entries = List<Entry>;

/// Two names of members, of which the first is to be merged before the second.
#[derive(Debug, Drop)]
pub struct Precedence {
    pub earlier: Words,
    pub later: Words,
}

/// Precedences of a certificate, in any order. One that stands twice says no more than one that
/// stands once.
pub type Precedences = List<Precedence>;

/// What somebody claims of a set of members: that they are children of the root, which is LIVE or
/// another kept workspace, and that the entries cover each need that merging them touches, as long
/// as no member is merged before one that is to be merged before it. None of it is taken to be true.
#[derive(Debug, Drop)]
pub struct Certificate {
    pub root: Words,
    pub members: Names,
    pub before: Precedences,
    pub entries: Entries,
}
