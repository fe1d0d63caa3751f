//! Rows that serve a need: under which rule and of which side they are, at which place one would have to stand, and which changes
//! of members bring one or take one away.
//!
//! - `rule_of`, `need_place`: the rule of a need, and where a row that serves it would have to stand; a place where rows meet lies on both parts.
//! - `server_changes`: exactly the changes of members that bring a row which serves a need, or take one away, in order.
#![tactic(auto)]

mod need_places;
mod servers;

pub use need_places::{need_place, rule_of, server_side};
pub use servers::{ServerChange, server_changes};
