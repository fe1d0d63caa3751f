//! What is done to stored workspaces: each operation on a map of deltas beside LIVE's content, whole
//! or not at all.
//!
//! - `write_rows`, `mark`, `roll_to`, `merge_changes`, `refresh_changes`, `rebase` and `create`
//!   [`ok`, `err`]: the whole workspaces that the deltas mean afterwards are those of the operation
//!   (`clr_workspaces: Operations`). If memory runs out, they are as they were. `roll_all`
//!   [`rolled`] and `remove` [`removed`] take no memory.
//! - [`lean`]: where no difference was neutral, none is afterwards, also where memory ran out.
#![tactic(auto)]

mod operations;

pub use operations::{
    create, mark, merge_changes, rebase, refresh_changes, remove, roll_all, roll_to, write_rows,
};
