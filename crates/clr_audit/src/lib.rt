//! The broken needs of a content, and a quicker look that may see that there are none.
//!
//! - `audit` [`list`, `lists`]: exactly the needs that no row serves, ascending, each once, memory
//!   aside. Every rule holds exactly where there is none, and else the first is the least, which
//!   `first_broken` answers alone, without the others being kept. Rows are
//!   filed by spot and by the side that they are of; subjects are held against subjects alone, and
//!   a server is looked for among servers alone. That this misses none stands on the laws of shared
//!   spots.
//! - `first_unknown`: the least broken need that isn't among some that are known, whatever their order.
//! - `is_seen_to_hold`, over a finder that has the rows of a content: where it is true, every rule holds.
//!   Where it is false, nothing is said. For each row it looks up, by the spots that the finder keeps, the
//!   rows that may stand beside it and those that may serve it. That no pair is missed stands on the laws
//!   of shared spots.
#![tactic(auto)]

mod audits;
mod part_servers;
mod quick_audits;
mod role_index;
mod searching;
mod unknown_needs;

pub use audits::{audit, first_broken};
pub use quick_audits::is_seen_to_hold;
pub use unknown_needs::first_unknown;
