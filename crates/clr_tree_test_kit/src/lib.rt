//! Deeds on a tree of workspaces as texts, what they leave as texts, workspaces on three levels, and parts by their differences:
//! what tests of the tree share.
#![tactic(auto)]

mod deltas;
mod fixtures;
mod levels;
mod operations;
mod scripts;
mod texts;

pub use deltas::{SAME_DEEDS, delta_parts, delta_tree};
pub use fixtures::{numbered_sheet, words};
pub use levels::{THREE_LEVELS, counts_after, news_after};
pub use operations::{TreeOperation, act, find_savepoint};
pub use scripts::{act_line, act_lines, deed_in, parts_of, tree_after};
pub use texts::{changes_text, counts_text, new_lines, news_text, part_text, rows_text, tree_text};
