//! What is stored of the workspaces of a tree: a map of deltas by name, in order of creation, and the
//! differences that a delta has.
//!
//! - A delta is what is stored of a workspace, by differences; specs/ says which whole contents it
//!   means. The contract of each call says what becomes of the deltas; that of `store_saved_rows` says that
//!   no savepoint's content changes, also where memory runs out.
//! - `Differences` have, at some cells, a row or none: that by which one content differs from another that
//!   lies below it. The contract of each call says what becomes of the stored differences.
#![tactic(auto)]

mod delta_views;
mod differences;
mod leaves;
mod stored_marks;
mod stored_parts;
mod workspace_maps;

pub use delta_views::DeltaView;
pub use differences::Differences;
pub use leaves::{live_alone, push_leaf};
pub use stored_marks::{
    StoredMark, count_marks_of, count_saved, find_saved, has_child_after, sweep_each, sweep_each_at,
};
pub use stored_parts::StoredPart;
pub use workspace_maps::{Delta, WorkspaceMap};
