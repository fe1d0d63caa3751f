//! Clashes: members that can't all be merged, since together they break a need which nothing
//! covers.
//!
//! - `clashes` [`AreSmallestClashes`] gives exactly the smallest clashes of a scene's members, by
//!   position. A clash is the members that break a touched need of all which nothing covers, and it
//!   is a smallest one where it holds no other. Each is listed once, with the least need that
//!   exactly its members break, in the order of these needs; and each clash holds one that is
//!   listed. It fails only if memory runs out. The touched needs are gone over once; no subset of
//!   the members is tried.
//! - `clashes_decide_subsets`: where no cell is changed by two members, each touched need of some of the members, in the scene of these alone, is covered
//!   exactly where they hold none of the smallest clashes. `listed_clashes_decide_subsets`: each is
//!   covered exactly where they hold none of a list of the smallest clashes.
//! - `broken_needs` [`AreBrokenNeeds`] gives all touched needs of a scene without witnesses, ascending, each with exactly the members that
//!   break it. It fails only if memory runs out. `parts_break_listed_needs`: where no cell is changed by two members, the least need that
//!   some of the members break, in the scene of these alone, is the first of this list of which they hold all members that break it.
#![tactic(auto)]

mod breaking;
mod laws;
mod listing;

pub use breaking::broken_needs;
pub use laws::{clashes_decide_subsets, listed_clashes_decide_subsets, parts_break_listed_needs};
pub use listing::{Clash, clashes};
