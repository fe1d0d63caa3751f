//! The broken needs of LIVE, one by one: whether each is known, where it is, and the few words that a map would say there.
//!
//! - `list_errors` [`AreListed`]: each broken need of LIVE, in the order of an audit, beside needs that are known. Its place is where a map
//!   marks its cause, or else the middle of its first row. It fails only for want of memory.
//! - `is_any_unknown`: whether one of some errors isn't known.
#![tactic(auto)]

mod listed_errors;

pub use listed_errors::{ListedError, is_any_unknown, list_errors};
