//! What holds in a network into which the edits of a plan over a cut were written.
//!
//! - `what_is_written_back_breaks_no_more`: the law that designs which are cleared over a cut leave a network in which nothing is broken that wasn't before,
//!   if the transaction of their edits writes anything. The network may have changed since the cut was made.
#![tactic(auto)]

mod laws;

pub use laws::what_is_written_back_breaks_no_more;
