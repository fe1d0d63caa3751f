//! Rules over the rows of a network: which rows call a rule, which serve them, and what the needs
//! are that no row serves.
//!
//! - `RuleBook::new` [`made`, `judged`] makes a book of just these rules, or answers the first rule
//!   that can't stand in one over the schema, and why. `calls_one`, `calls_two` and `serves` are
//!   exactly the definitions: which rows a rule speaks of, part by part where it is asked of paths,
//!   and which row serves them, by common points of segments and equal values. None takes memory.
//!   `rule`, `rules`, `len` and `part_count`.
//! - `roles_of`: which sides of a rule a row is of, by `sides`; `is_of`, `is_of_side`, `point_in`
//!   and `end_in` look at one side and one shape. Laws, among them `crossing_subjects_have_common_points` and
//!   `crossing_servers_are_common_points`: a CROSSING is what its definition with shares of
//!   segments says.
//! - `newly_broken_needs_are_listed`: the needs that one content breaks, and another doesn't with the same rows, are listed exactly.
//!   `newly_broken_needs_are_all_where_rules_held`: where every rule held before, these are all that are broken.
#![tactic(auto)]

mod books;
mod calls;
mod columns;
mod laws;
mod limits;
mod needs;
mod roles;
mod rules;
mod shapes;
mod sides;

pub use books::{RuleBook, RuleFault};
pub use columns::{Col, ColumnList};
pub use laws::{
    broken_needs_are_listed, crossing_servers_are_common_points,
    crossing_subjects_have_common_points, newly_broken_needs_are_all_where_rules_held,
    newly_broken_needs_are_listed, servers_have_roles, subjects_have_roles,
};
pub use limits::{LEAST_DISTANCE, MOST_RULES, limits_of_books};
pub use needs::{Ask, Broken};
pub use roles::Roles;
pub use rules::{Rule, Sides, Tip};
pub use shapes::{end_in, point_in};
pub use sides::{Filter, Side, is_of, is_of_side};
