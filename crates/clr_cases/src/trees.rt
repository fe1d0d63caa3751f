//! What operations leave of the tree of workspaces, as lines.

use clr_tree_test_kit::{counts_after, news_after};
use std::alloc::Global;

/// Returns what is asked about no office by these words; none where nothing can be asked by them.
pub fn answer_alone(alloc: Global, words: &str, asked: &str) -> Option<Vec<u8>> {
    let mut text = match words {
        "operations" => news_after(alloc, asked).ok()?,
        "entries" => counts_after(alloc, asked).ok()?,
        _ => return None,
    };
    text.push_str("\n").ok()?;
    Vec::from_slice(alloc, text.as_bytes()).ok()
}
