//! The judge of an office: by its rules, whether what a command would leave breaks a need anew, and what the kept
//! workspaces of a tree break.
//!
//! - `prepare`, `prepare_row`, `prepare_savepoint`, `prepare_base`, `prepare_refresh` [`judged`, `prepared`, `err`]: the least
//!   need that a kept workspace would break anew once it had another content; where there is none, its finder has
//!   noted what changes. `prepare_hold`: the same of a workspace that is to be kept, whose finder is made.
//! - `finders` [`first`, `finders`]: the finders of a tree, or the first kept workspace that breaks a need which isn't
//!   known, and the least such need. `unheld` [`first`] finds the same by audits alone, and makes no finder.
//! - `broken_needs` [`broken`]: just the needs that the kept workspaces break.
#![tactic(auto)]

mod judges;
mod kept_contents;

pub use judges::Judge;
