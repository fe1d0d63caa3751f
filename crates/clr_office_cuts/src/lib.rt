//! Offices that are cut out of a bigger one: the same verdicts, the same plans, and promises for the
//! whole. The whole is a definition, and need never be a text.
//!
//! - `OfficeCuts` in specs/: when an office is cut out of the whole for a merge set. The rows of its
//!   root are a cut (`clr_cuts`), and its members changed the same. Other workspaces may be missing.
//! - `cut_offices_answer_for_the_whole`: each verdict of a check, by any entries, and each plan over the cut, be it
//!   unfit, cleared or blocked, is one over the whole, and the other way round.
//! - `cut_offices_promise_for_the_whole`: so a clear verdict over the cut gives the headline of the whole, of which
//!   nothing is asked, and a blocked plan's order is refused there.
//! - `offices_of_cells_are_cut_out`: an office that has the rows of some cells alone, wherever its members look, is cut out of
//!   the whole where its root's rows are a cut. `passes_cut_offices_out` [`none`, `three`]: so it is by
//!   passes over the rows of the whole's root, which ask for nothing but the office and those rows.
#![tactic(auto)]

mod laws;

pub use laws::{
    cut_offices_answer_for_the_whole, cut_offices_promise_for_the_whole,
    offices_of_cells_are_cut_out, passes_cut_offices_out,
};
