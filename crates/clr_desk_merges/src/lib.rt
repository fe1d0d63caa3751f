//! The answers of the second program about certificates: verdicts on them, and merges that they clear.
//!
//! - `answer_check`: the line of the verdict on a certificate in the office of a text, and as a note whom the certificate speaks of (`IsCheckPrint`).
//! - `answer_merge`: the text of the office that merges leave which a certificate clears, and as notes the lines of the merges, where they stopped, and
//!   the member for which the merge waits (`IsHintedMerge`).
#![tactic(auto)]

mod checks;
mod merges;
mod waiting;

pub use checks::answer_check;
pub use merges::answer_merge;
