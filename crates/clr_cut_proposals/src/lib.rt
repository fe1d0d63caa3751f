//! SQL that proposes a cut of a network around designs, by index conditions alone.
//!
//! - `write_proposal` [`text`]: the exact bytes, memory aside. The statements find the rows at cells that designs list, then the rows that may share a spot of
//!   a rule with a row that a design brings or takes away, and then the rows that may serve these, by the same columns, ends, distances, filters and squares by
//!   which `clr_reach` finds rows. Nothing is promised of what a database answers: a pass over its tables shows whether the rows are a cut.
#![tactic(auto)]

mod designs;
mod places;
mod proposals;
mod roles;
mod searches;
mod squares;

pub use proposals::write_proposal;
