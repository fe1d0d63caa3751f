//! Parts: workspaces handed in or out, with whole contents or by their differences, and what is wrong
//! with them.
//!
//! - `push_parts` and `push_deltas` [`made`, `passed`, `refused`] give the map of LIVE and of just
//!   these parts, or the position of the first whose name or place has a fault, and that fault.
//!   `judge_marks` [`passed`, `refused`] does so for marks.
//! - `live_part` and `part_at` give a workspace as a part, with whole contents.
#![tactic(auto)]

mod builds;
mod delta_builds;
mod part_checks;
mod part_reads;
mod parts;

pub use builds::push_parts;
pub use delta_builds::push_deltas;
pub use part_checks::judge_marks;
pub use part_reads::{live_part, part_at};
pub use parts::{MarkPart, Part, PartFault};
