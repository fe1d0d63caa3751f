//! Orders in which the members of a scene can be merged one after another.
//!
//! - `order_scene` [`IsSceneOrder`] names the least open need that no member helps, with its blockers, if
//!   there is one. Else it gives an order of all members with pairs of which the first goes before
//!   the second: under these pairs every touched need is covered, and without any of them one isn't.
//!   Or it says that each list of all members breaks an open need on the way, with members that show
//!   it; or that a knot of more members than `MOST_SEARCHED` is left, and just this. It fails only if
//!   memory runs out.
//! - `final_needs_break`: each list of all members breaks a need that no member helps.
#![tactic(auto)]

mod laws;
mod scene_orders;

pub use laws::final_needs_break;
pub use scene_orders::{SceneOrder, order_scene};
