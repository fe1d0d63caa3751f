//! What a quick audit looks at.

mod limits;
mod pairs;
mod rows;
mod servers;

use clr_rows::Sheet;
use clr_rules::RuleBook;
pub use rows::is_seen_to_hold;

/// A book, the rows of a content, and a finder that has these rows.
#[derive(Drop)]
pub(crate) struct QuickAudit<'a, F> {
    pub(crate) book: &'a RuleBook,
    pub(crate) sheet: &'a Sheet,
    pub(crate) finder: &'a F,
}
