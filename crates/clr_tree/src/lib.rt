//! Workspaces in a tree under LIVE, stored by their differences and seen with whole contents.
//!
//! - `Tree::new`, `create`, `write_all`, `mark`, `roll_to`, `rebase`, and `merge_changes` and
//!   `refresh_changes`, which are given the changes [`ok`, `err`]: the contract tells the whole
//!   list of workspaces after each call, with all names, parents, contents, marks and flags. If
//!   memory runs out, all stays as it was. `remove`, `unmark`, `roll_all`, `hold` and `release`
//!   take no memory. `find`, `len`, `name_at`, `parent`, `children`, `depth`, `saved`, `find_mark`,
//!   `held`, `kept`, `read`, `base`, `view`, `live`, `changes`, `rows`, `base_rows`, `saved_rows`
//!   and `part` show the tree exactly.
//! - `Tree::build` [`made`, `passed`, `refused`] gives the tree of just these parts, or the first
//!   fault of their list with its position, or want of memory. `Tree::of_deltas` [`made`, `passed`,
//!   `refused`] does so for parts by their differences; its contract speaks of the whole workspaces
//!   that they mean.
//! - `Tree::sweep` [`contents`, `deltas`, `counts`, `saved`] takes no memory and changes no
//!   content. Afterwards what is stored of a workspace, which `delta` shows without a copy, is
//!   exactly what it differs in from its parent's content (`clr_deltas: Differing`). Then `stored`
//!   is the number of cells where its base isn't as its parent's current content, and of those that
//!   it changed; and each savepoint has as many differences as there are cells where its content isn't
//!   as the base.
//! - No operation makes a difference neutral where none was before: this is an invariant of `Tree` from
//!   its first sweep on. So a later sweep keeps its promise without a look at any difference.
//!   `clr_contents::sweep_at` [`seen`, `lean`] and `clr_deltas::Differences::sweep_at` take
//!   exactly the neutral differences at some cells away.
#![tactic(auto)]

mod tree;

pub use clr_change::{ChangeSet, Edit, EditFault, Edits, first_conflict, stage};
pub use clr_contents::View;
pub use clr_deltas::{DeltaView, StoredPart};
pub use clr_workspace_parts::{MarkPart, Part, PartFault};
pub use clr_workspaces::{Keep, MOST_LEVELS, MOST_SAVEPOINTS, MOST_WORKSPACES, Rebase};
pub use tree::Tree;
