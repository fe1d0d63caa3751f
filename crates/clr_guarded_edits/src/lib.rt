//! Edits that take the tables of a database from one content to another, each guarded by the row as it was.
//!
//! - `write_sql` [`text`]: a transaction in SQL of PostGIS or of SpatiaLite, the exact bytes, memory aside. First it locks the tables, leads each of them
//!   through `clr_desk reach`, and looks whether each row of the first content is still there as it was and no row is where one is put. Then it makes the
//!   edits, and looks whether they had their effect. Where one of these fails, nothing is written.
//! - `write_records` [`text`]: the same edits as CSV, each with the row as it was before it.
//! - `why_unsayable`: why edits can't be said in SQL.
//! - `guarded_edits_are_all_or_nothing`: the laws that the statements of such a transaction, made over tables in which the rows stand as they were, leave the
//!   second content at each cell that differs and all else as it was; and that they leave all as it was where one doesn't, or where a row came in reach.
#![tactic(auto)]

mod assignments;
mod demands;
mod edit_texts;
mod fits;
mod insertions;
mod laws;
mod passes;
mod records;
mod sql_texts;

pub use fits::{Unsayable, why_unsayable};
pub use insertions::{add_given_shape, add_values};
pub use laws::guarded_edits_are_all_or_nothing;
pub use records::write_records;
pub use sql_texts::write_sql;
