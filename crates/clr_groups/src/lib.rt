//! Groups of members: two stand in one where a chain of dependent pairs joins them. Each touched need
//! of a scene is touched in the scene of just one group, so that a plan can be made group by group.
//!
//! - `groups` [`AreGroups`]: groups of a scene's members, by position. Each ascends and has a
//!   member; each member stands in one; and two stand in the same one exactly where a chain of
//!   dependent pairs joins them. The needs that may tie members are listed once; no pair is
//!   tried.
//! - `groups_and_needs`: these groups, and the needs that are touched in their scenes, of the same
//!   list of needs.
//! - `group_scene`: the scene of one of these groups.
//! - `groups_split_needs`: where no cell is changed by two members, each touched need of all
//!   members is touched in the scene of just one group, and no other need is touched there; the
//!   same witnesses are picked for it there, and the same members break it.
#![tactic(auto)]

mod group_needs;
mod labels;
mod laws;
mod member_groups;
mod member_needs;
mod scenes;

pub use group_needs::{GroupNeed, groups_and_needs};
pub use laws::groups_split_needs;
pub use member_groups::groups;
pub use scenes::group_scene;
