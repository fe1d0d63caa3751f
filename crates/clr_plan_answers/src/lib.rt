//! What a plan answers, in sentences: whether members can be merged, in which order a merge is refused, or which name has to be mended.
//!
//! - `answer_words`: exactly the sentences that are prescribed, each a line; nothing is told of a plan that found no memory.
//! - `add_order_text`: members in an order, as `Renewal, then Extension`.
#![tactic(auto)]

mod answers;
mod unfit;

pub use answers::{add_order_text, answer_words};
