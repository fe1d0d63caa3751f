//! Cuts: some rows of a root, around what members change, over which what is planned and checked is
//! what it is over the whole root.
//!
//! - `Cuts` in specs/: which rows are enough. A safe cut has the cells that members change and the
//!   subjects of all touched needs; a cut has what serves these needs besides. Nothing is asked of the
//!   root. A need of the cut that isn't touched may lack what serves it, so that the cut may break needs
//!   that the root meets: its own audit says nothing of the root, and no verdict or plan looks there.
//! - `cuts_answer_for_the_whole` [`safe`, `cut`, `whole`]: what covers over a safe cut covers over the
//!   whole root, which then breaks nothing more with the changes of more members over it. Over a cut
//!   the touched needs, what serves each, the picks, the blockers and the covers are those over the
//!   whole; a need that nothing covers there is newly broken in the whole by its blockers.
//! - `rows_in_reach_make_a_cut`: what a cut must have, asked of one row at a time (`Reach`).
//!   `tied_rows_tell_dependence` [`tied`, `dependent`]: what it must have besides so that the same
//!   members depend on one another.
//! - `passes_make_cuts` [`none`, `three`, `split`, `change`]: a pass over all rows by a test that takes
//!   each row in reach, and may take others. One that answers no row shows a cut. Three passes make
//!   one, whatever there is at first and however long the chains of rows are that serve one another.
//!   A pass may go over one list and then another, and where the root changes, over its new rows alone.
//! - `served_rows_are_audited_alike` [`rows`, `sections`]: rows that have all that serves their needs,
//!   touched or not, meet these as the root does, so a root can be audited section by section.
//! - `members_beside_a_cut_are_independent`: members of a cut depend on no other one where no row of
//!   the others is of a tie of theirs (`Others`).
#![tactic(auto)]

mod laws;

pub use laws::{
    cuts_answer_for_the_whole, members_beside_a_cut_are_independent, passes_make_cuts,
    rows_in_reach_make_a_cut, served_rows_are_audited_alike, tied_rows_tell_dependence,
};
