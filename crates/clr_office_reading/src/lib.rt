//! Office texts, read as a schema, a book of rules, needs that are known to be broken, the content of LIVE and workspaces.
//!
//! - `read_office` [`value`, `fits`]: what a text of format 1 to 4 means, or its first fault,
//!   memory aside: the schema, the rules with their known needs, LIVE's rows, and the workspaces by their differences.
//!   Each row and rule fits the schema. NotJson is answered only where the bytes aren't UTF-8 or
//!   `serde_json` reads no value. Whether the workspaces as a whole make a tree isn't asked here.
#![tactic(auto)]

pub mod cells;
pub mod earlier_names;
pub mod formats;
pub mod live;
pub mod named_cells;
pub mod named_marks;
pub mod patches;
pub mod reading;
pub mod tables;
pub mod workspaces;

pub use clr_deltas::StoredPart;
pub use clr_rule_text::known_needs::KnownNeeds;
pub use clr_rule_text::{TextFault, fields, named_rules, named_sides, rules, stated_rules};
pub use reading::{OfficeParts, read_office};
