//! What the cause of a plan is about: the rows that it names, where it is, and the few words that say why.
//!
//! - `cause_of`: exactly the rows that a cause names, each with the design by which it stands, the rows that served a need and go, and the few words
//!   that say why; and the place, where it is a whole millimetre. Where rows meet at no whole millimetre, the place is in the boxes of both parts
//!   at which they meet.
//! - `cause_of_need`: the same of a need that nothing covers.
//! - `leaders_of`: exactly the members that a cause names.
//! - Each call is safe and ends, and no call fails while there is memory. Where rows cross at no whole millimetre, the place is the one that
//!   `clr_whereabouts` tells, which sentences have too. How near the place of an overlap is to what both share is tested by pictures.
#![tactic(auto)]

mod badges;
mod cause_marks;
mod cause_places;
mod cause_rows;
mod near_places;
mod plan_causes;

pub use plan_causes::{cause_of, cause_of_need, leaders_of};
