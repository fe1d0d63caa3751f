//! Drafts of office texts, whole offices whose rules aren't yet known to hold; and offices written as
//! texts.
//!
//! - `read_office` [`draft`, `known`] gives the draft that a text means, or its first fault, memory aside: schema,
//!   rules, LIVE, and each workspace with whole contents, marks and flag; and the needs that the text names as known to be
//!   broken. A fault of the workspaces as a whole is BadPart. `rules_hold_where_none_is_unheld`: in an office of which `unheld_in` names
//!   no workspace that breaks a rule, every rule holds in LIVE and in each kept workspace.
//! - `write_office` [`text`, `again`, `known`, `admitted`] gives the text of an office, with exactly the
//!   cells that differ: in format 3, or in format 4 where a need is broken in LIVE or in a kept workspace, with exactly these
//!   needs as known. The text is read as the same office, and it is admitted. The contract speaks of contents,
//!   not of how they are stored. `write_draft` gives the text of a draft whose broken needs are known from then on.
#![tactic(auto)]

mod laws;
mod reading;
mod writing;

pub use clr_office_reading::{KnownNeeds, TextFault};
pub use laws::rules_hold_where_none_is_unheld;
pub use reading::{DraftText, read_office};
pub use writing::{write_draft, write_office};
