//! Members that help a set of members which can't be merged together: where one of them is merged first, the need that the
//! set breaks is served, or one of the rows is gone that the need is of.
//!
//! - `helped_clashes` [`AreHelped`]: of each set whose cause is a need exactly the members that help it, by position,
//!   ascending. A member helps if it can stand beside the set, since no test of members fails, it isn't in conflict and it
//!   changes no cell that one of the set changes; and if there, as `IsHelperOf` says, it takes a row away that the need is of,
//!   or brings a row that serves it. Where the cause is a conflict or a shared cell, none helps: no order changes these. Want
//!   of memory is the only refusal.
//! - `helpers_of` says the same of one need and some members that touch it.
//! - `unhelped_sets_are_never_cleared`: where no member helps a set that breaks a need by itself, no plan of members with all of
//!   the set in it is cleared in the order of these members.
#![tactic(auto)]

mod helped;
mod helping;
mod laws;
mod listing;
mod refusals;
mod touching;

pub use helped::{HelpedClash, helped_clashes};
pub use laws::unhelped_sets_are_never_cleared;
pub use listing::helpers_of;
