//! When children of a kept workspace may be merged into it where some go before others, between other
//! work: what covers them then, and what is promised of them.
//!
//! An ordered merge set is a merge set with pairs of names, of which the first goes before the second.
//! A merge of a member comes in turn where the members that go before it are merged, as the replies
//! tell. A refresh may come at any time.
//!
//! - `MergeSets`, `Turns`, `Safety`, `Headlines` and `Runs` in specs/: what covers an ordered merge set,
//!   lists of commands in which merges come in turn, and what is promised over every such list.
//! - `covers_in_turn_keep_the_headline`: in every list of quiet commands in which merges come in turn,
//!   no merge of a member meets a conflict or breaks a rule, and the root breaks nothing new.
//!   `merge_sets_covered_in_turn_are_safe` says more of each office on the way.
//! - `listed_members_can_be_merged`: members can be merged as any list has them in which who goes before
//!   another stands before it, and then no merge is refused.
//!   `clearances_in_turn_last`: afterwards those that still stand are covered again.
//! - `members_covered_in_turn_stay_free`, `numbers_stand_for_names_in_turn`,
//!   `without_order_is_every_order`: without commands between merges, by position, and where no member
//!   goes before another.
//! - `runs_in_turn_are_cleared`: runs of the first commands of a list, one after another.
//! - `orders_that_break_a_need_are_refused`: which orders of merges don't work.
//! - `Verdicts` and `VerdictLaws` in specs/: what is to be said of an ordered merge set and of entries.
//!   `clear_verdicts_in_turn_promise_all`, `verdicts_in_turn_are_one`,
//!   `verdicts_in_turn_come_need_by_need`: what a clear verdict promises, that there is one verdict, and
//!   how it comes about. `clear_verdicts_in_turn_last`: a clear verdict stays clear.
//!   `verdicts_without_order_are_those_of_merge_sets`: where no member goes before another, nothing
//!   changes.
#![tactic(auto)]

mod laws;
mod verdict_laws;

pub use laws::{
    clearances_in_turn_last, covers_in_turn_keep_the_headline, listed_members_can_be_merged,
    members_covered_in_turn_stay_free, merge_sets_covered_in_turn_are_safe,
    numbers_stand_for_names_in_turn, orders_that_break_a_need_are_refused,
    runs_in_turn_are_cleared, without_order_is_every_order,
};
pub use verdict_laws::{
    clear_verdicts_in_turn_last, clear_verdicts_in_turn_promise_all, verdicts_in_turn_are_one,
    verdicts_in_turn_come_need_by_need, verdicts_without_order_are_those_of_merge_sets,
};
