//! When children of a kept workspace may be merged into it in any order, between other work: what a
//! checker is to say of them, and what its yes promises.
//!
//! Beside the laws that the table in docs/PROVED.md names:
//!
//! - `covered_members_stay_free`: where entries cover the members, the root with the changes of more
//!   of them breaks no need but those that it breaks with fewer; where every rule holds in the root,
//!   it holds with the changes of any of them; and no other member is in conflict with those rows.
//!   `order_gives_the_same_rows`: those rows don't depend on the order of the members.
//!   `covered_merge_sets_are_safe`: a covered merge set is safe.
//! - `quiet_lists_leave_merges`, `merges_and_refreshes_are_safe`: what quiet lists leave of the
//!   root and of each member; a member that was refreshed has the root's first rows with the
//!   changes of the merged members and its own over them, which break no more than the root.
//! - `quiet_runs_are_cleared`: what `Office::perform_all` answers to quiet commands of a safe merge set
//!   is a cleared run.
//! - `members_stand_in_any_order`: whether a merge set is safe, and whether entries cover it, doesn't
//!   depend on the order in which its members are named. `numbers_stand_for_names`: it doesn't
//!   depend either on whether they are named by name or by position.
//! - `unpicked_needs_are_refused`: of every touched need without witnesses the blockers are an
//!   order that is refused.
//! - `merge_sets_have_one_plan`, `lists_have_one_quiet_start`: memory aside, no merge set has two plans, and
//!   no list of commands is performed in two ways up to its first that isn't quiet.
#![tactic(auto)]

mod check_laws;
mod headline_laws;
mod laws;
mod one_answer_laws;
mod plan_laws;
mod verdicts;

pub use check_laws::{faults_of_examples, needs_are_judged_in_order, quiet_answers_grow};
pub use headline_laws::{
    clear_keeps_the_headline, members_stand_in_any_order, quiet_runs_are_cleared,
};
pub use laws::{
    clear_is_covered, clear_merge_sets_are_safe, cleared_runs_are_safe, covered_members_stay_free,
    covered_merge_sets_are_safe, merges_and_refreshes_are_safe, numbers_stand_for_names,
    order_gives_the_same_rows, quiet_lists_leave_merges,
};
pub use one_answer_laws::{lists_have_one_quiet_start, merge_sets_have_one_plan};
pub use plan_laws::{
    blocked_plans_are_refused, clearances_last, cleared_plans_cover,
    safe_merge_sets_are_never_blocked, unpicked_needs_are_refused,
};
pub use verdicts::Verdict;
