//! How each of many designs stands, said of all of them at once.
//!
//! - `board_of` [`board`]: of members of a root and their smallest clashes, exactly who helps each clash, how each member stands (`state_of`),
//!   which members go now or after others, and what the planner of orders says of these, with what that promises. Want of memory is the only
//!   refusal. The clashes are handed in and their helpers are looked for once. There is one order, and one more for each member that is left out
//!   since no order is found with it (`Settles`).
//! - `state_of`, by the first clash that has a member: it is free where none has; where the clash is of it alone it is in conflict with the
//!   root, or waits for those that help it, or nobody helps it; and else it clashes with others.
//! - `states_tell_plans`: whatever members can be merged in every order, they can be so with a free one, if all of them were looked at; a member that
//!   waits, that nobody helps, or that is in conflict can't be merged in every order even alone; and one that clashes can be merged alone.
#![tactic(auto)]

mod boards;
mod laws;
mod settling;
mod states;
mod turns;

pub use boards::{Board, board_of};
pub use laws::states_tell_plans;
pub use states::{DesignState, clash_of, state_of};
pub use turns::{Turn, earlier_of, is_ordered};
