//! What a workspace is, and what each operation makes of it, in terms of whole contents and not of
//! how they are stored.
//!
//! - `Marks`, `Workspaces` and `Roots` in specs/: marks, a workspace, the list of all in order of
//!   creation, and when they form a tree.
//! - `Operations`: what each operation makes of the workspaces, by position. `Soundness`: what
//!   holds of the workspaces of every tree.
#![tactic(auto)]

mod limits;
mod rebases;

pub use limits::{MOST_LEVELS, MOST_SAVEPOINTS, MOST_WORKSPACES, limits_of_workspaces};
pub use rebases::{Keep, Rebase};
