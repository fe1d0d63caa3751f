//! Names that are taken in their order, each where it is cleared with those taken before it.
//!
//! - `choose` [`chosen`]: of names that are gone through in their order, those that are taken, with the certificate of them
//!   all, and of each other the lines of a plan. A name is taken where the members taken before it and it are
//!   clearable (`AreClearable`), and left where a plan of them isn't cleared. Want of memory is the only failure.
//! - `plan_members`: the plan of members, with what it promises (`IsPlanOf`). `refusal_lines`: the lines of a name that is left
//!   (`refusal_text`). `TriedName` is what is said of one more name, also where names are tried in another way.
//! - Which names are taken is guessed. Where a plan clears all that fit, it is all of them. Else they are looked at together: one pass over the
//!   needs that they touch lists all that they break, each with those that break it. One plan of those that break none shows that they are cleared
//!   together, and so that each of them is cleared with those before it. Of each other name the same list says which need it breaks first
//!   with those taken before it, and who breaks it: that is its plan (`parts_break_listed_needs`). Only names that aren't looked at, since they are in
//!   conflict or change a cell that another one changes, are planned. Where the guess is wrong, each name that follows is.
//! - `plans_tell_clearable`: a plan for which memory was found is cleared exactly where its members are clearable.
//! - `parts_stay_clearable`: some of the members that are clearable are clearable too.
#![tactic(auto)]

mod choices;
mod guesses;
mod held;
mod laws;
mod looked;
mod progress;
mod trials;

pub use choices::{Choice, choose};
pub use laws::{parts_stay_clearable, plans_tell_clearable};
pub use trials::{TriedName, plan_members, refusal_lines};
