//! Tests of office texts.

mod answers;
mod cases;
mod known;
mod live;
mod rules;
mod workspaces;

use std::alloc::Global;

/// Returns what is read of an office text: a table, rows, a rule, known needs, a workspace, a flag, or why it is refused.
pub(crate) fn answer(alloc: Global, word: &str, rest: &str) -> Option<String> {
    match word {
        "table" => live::table_text(alloc, rest),
        "rows" => live::rows_text(alloc, rest),
        "rule" => rules::rule_text(alloc, rest),
        "known" => known::known_text(alloc, rest),
        "workspace" => workspaces::workspace_text(alloc, rest),
        "flag" => answers::flag_answer(alloc, rest),
        _ => answers::fault_answer(alloc, word, rest),
    }
}
