//! Which needs are covered where some members go before others, in terms of settings: what covers
//! one in every state in which the members have come in turn, and who breaks one that nothing covers.
//!
//! The words are those of `clr_needs`, with who goes before whom in front. Nothing is asked of it.
//! A need has blockers, members that bring a subject or take a serving row away, and helpers, members
//! that take a subject away or bring a serving row. It is broken where all blockers are merged and no
//! helper is. So it is covered under an order where a helper is a blocker, or goes before one.
//!
//! - `Turns`, `Covers`, `Helpers` and `States` in specs/: members that have come in turn, what covers
//!   a need under an order, who helps and who blocks it, and where it is broken.
//! - `members_covered_in_turn_break_no_more`: where each touched need is covered under an order, the
//!   root with the changes over it of members that have come in turn breaks no need but those that
//!   it breaks with fewer of them, whatever it broke at first; and where every rule holds in the
//!   root, it holds with those changes.
//! - `uncovered_needs_break_in_turn`: under a transitive order a touched need that nothing covers is
//!   newly broken with its blockers and those before them, who have come in turn.
//! - `covers_are_helpers_in_turn`: a need is covered exactly where something serves it always, or a
//!   helper is a blocker or goes before one. `open_needs_tell_states`: where it is broken.
//! - `covers_last_in_turn`: once some members are merged in turn, the others are covered again.
//! - `merges_in_a_list_are_told`: which lists of all members work as an order of their merges.
//! - `no_order_is_every_order`, `positions_stand_for_names_in_turn`: the words of `clr_needs` are
//!   those of the empty order, and members may be named by position.
#![tactic(auto)]

mod laws;

pub use laws::{
    covers_are_helpers_in_turn, covers_last_in_turn, members_covered_in_turn_break_no_more,
    merges_in_a_list_are_told, no_order_is_every_order, open_needs_tell_states,
    positions_stand_for_names_in_turn, uncovered_needs_break_in_turn,
};
