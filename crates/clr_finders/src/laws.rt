//! Laws of finders, each proved by a function that does nothing.

ghost use Rattle.clr_finders.specs.Laws.{FindsServers, FindsSharing};

/// A finder that has settled a content finds exactly the rows that share with a row.
#[tactic(auto, using(crate::proofs::SharingLemmas::found_sharing))]
pub fn finders_find_what_shares()
    ensures { FindsSharing }
{}

/// The servers that a finder finds are exactly those rows that share with a row and are of the side
/// that serves.
#[tactic(auto, using(crate::proofs::SharingLemmas::found_servers))]
pub fn finders_find_servers()
    ensures { FindsServers }
{}
