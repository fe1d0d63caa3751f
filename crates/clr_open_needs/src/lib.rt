//! Open needs of a scene: the needs that its changes touch and that nothing covers in every order,
//! each with the members that break it and those that help it.
//!
//! - `open_needs` [`AreOpenNeeds`] gives exactly these needs, ascending, each once. Of each it has
//!   exactly the blockers, members that bring a subject or take a serving row away, and exactly the
//!   helpers, members that take a subject away or bring a serving row; both by position, ascending,
//!   each once. It fails only if memory runs out. The touched needs are gone over once.
//! - `helpers` [`Helps`] gives exactly the helpers of one possible need.
//! - `has_life` and `has_subject_with` say whether a version, or a subject of a need, has a life.
#![tactic(auto)]

mod helping;
mod listing;
mod scene_lives;

pub use helping::helpers;
pub use listing::{OpenNeeds, open_needs};
pub use scene_lives::{has_life, has_subject_with};
