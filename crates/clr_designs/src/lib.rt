//! Designs that have a wanted content, each made by two commands; LIVE with another content; and the script that makes a design.
//!
//! - `make_design` creates a workspace under LIVE and makes the edits in it that lead to a content. The office is the same with one more
//!   workspace, or the workspace can't be created, and nothing changes (`IsDesignMade`). `make_edited_design` does so by these edits.
//! - `replace_live` makes the edits in LIVE that lead to a content, unless that breaks a rule (`IsLiveReplaced`).
//! - `designs_are_made`: the law that both commands are done, and what they leave; and that their edits fit the schema, so that the script which is
//!   written of them is read back.
//! - `designs_were_made_since`: the law that an office with a design which took over a copied content of LIVE is the one in which the design was made
//!   where LIVE had that content, and LIVE has moved on since (`IsMadeSince`).
//! - `roll_back`, `take_away` [`performed`] roll a workspace back to its base, or take it away, or say why not; `set_content` [`set`] gives LIVE or a
//!   workspace another content, or says why it can't have it. `designs_are_brought_again`: the law that a workspace which is rolled back and then
//!   given a content has the base that it had, and changes just what the content changes of it (`IsBroughtAgain`).
//! - `edit_counts_line` tells how many rows edits add, change and remove, and `first_removed` the first that they remove.
//! - `write_design_script` [`written`, `read_back`] writes that script from the design's name, its root and its edits: the exact bytes, memory
//!   aside. Where each edit fits the schema, they are read as the two steps that make the design. `design_script_is_read_back`: the law that every
//!   such text is read as these two steps. `write_again_script` [`written`, `read_back`] and `again_script_is_read_back` are the same of the script
//!   that brings a design again.
#![tactic(auto)]

mod again;
mod counts;
mod designs;
mod laws;
mod writing;

pub use again::{roll_back, set_content, take_away};
pub use counts::{edit_counts_line, first_removed};
pub use designs::{make_design, make_edited_design, replace_live};
pub use laws::{
    again_script_is_read_back, design_script_is_read_back, designs_are_brought_again,
    designs_are_made, designs_were_made_since,
};
pub use writing::{write_again_script, write_design_script};
