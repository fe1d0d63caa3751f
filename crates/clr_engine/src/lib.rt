//! Offices: workspaces under LIVE over one schema, and rules by which no command brings a new error
//! into LIVE or into a workspace that is kept.
//!
//! - `Office::perform` [`answer`, `nothing_new`, `no_memory`]: the reply and the whole office afterwards are those
//!   of one step of `clr_steps`, or the reply is want of memory and the office is unchanged;
//!   Remove, Unmark and Release are never answered so. A refusal, always the first that applies,
//!   changes nothing; RuleBroken is the last, with the least need that the whole content breaks
//!   which would stand in LIVE or a kept workspace, and that isn't broken already with the same
//!   rows. The body looks at what the changes touch; what is proved speaks of the whole content. So
//!   no kept content breaks what none broke before, and every rule goes on holding where every rule
//!   held (`BreaksNothingNew`).
//! - `Office::perform_all` [`run`, `nothing_new`, `err`]: the replies and the office are those of `run` in which
//!   the commands answered OutOfMemory are lost; where no memory is found for the replies, nothing
//!   is performed.
//! - `Draft::build` [`made`, `passed`, `refused`] gives a draft of LIVE and parts, or the first
//!   part that can't stand and why; `Draft::of_tree` gives one of a tree. The condition is that the
//!   rules and each row fit the schema. `Draft::admit` [`office`, `held`, `draft`, `fault`] gives
//!   an office of the same exactly where each need that is broken in LIVE or in a kept workspace is
//!   among the known ones; otherwise it gives the draft back with the first that breaks another need
//!   and its least such need, or with want of memory. An office goes on fitting its schema [`admitted`].
//! - `schema`, `book`, `live`, `len`, `name_at`, `parent_of`, `kept`, `read`, `rows`, `changes`,
//!   `conflicts` and `part` show the office exactly; all up to `read` take no memory. `len`
//!   [`sound`] tells what holds of its workspaces (`clr_workspaces: Soundness`).
//! - `find`, `view` and `finder`, without memory: a workspace's position, its current content by
//!   cell, and the finder of exactly its rows, which there is exactly where it is kept. `stored`:
//!   after every command there are, of each workspace, exactly as many differences as cells where its
//!   base isn't as its parent's current content and cells that it changed. `delta` shows what is
//!   stored of a workspace, without a copy: exactly what it differs in, its base from its parent's
//!   current content, its current content and its savepoints from its base.
#![tactic(auto)]

mod commands;
mod conflicts;
mod drafts;
mod offices;
mod plain_commands;

pub use clr_grid::SpotIndex;
pub use clr_rules::{Broken, RuleBook};
pub use clr_steps::{Command, Reply};
pub use clr_tree::{DeltaView, MarkPart, Part, PartFault, View};
pub use drafts::{AdmitFault, Draft};
pub use offices::Office;
