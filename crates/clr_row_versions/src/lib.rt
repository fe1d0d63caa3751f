//! Versions of rows over a root and what members change there, without any search for rows.
//!
//! Members are sets of changes over a root's rows. What stands here needs no finder and no spots, so
//! that it is proved beside these. `clr_foot` finds by them what changes touch.
//!
//! - `Members` [`new`, `least_shared`]: change sets, the cells that they change, and the first two
//!   members that change each. `changer`, `new_version`: the first member that changes a cell, and
//!   the row that it brings there. `add_cells`: the cells of one change set. `sets_at`: the change
//!   sets at some positions.
//! - `Version`: a row by its name, with its life. `are_same`, `are_opposed`, `is_living`, `is_named`:
//!   tests of lives.
//! - `RootVersions`: rules, a root's rows, and members over them. `version`: the version of a name, if
//!   there is one. Of a need and of versions that are listed it tells without a search: which is the
//!   least with a life (`least_with_life`), which stands after a merge (`are_living`,
//!   `first_living`), whose life names a member (`has_named_subject`, `first_naming`), whether a
//!   member breaks the need (`is_blocker`), and which witnesses a planner names (`pick_of`).
//!   `may_be_served`: whether a server may serve a need of a subject at all. Of versions that are handed
//!   to it, it adds the needs that a rule asks of one alone (`add_alone`), of two in given parts
//!   (`add_of_ask`) and of one beside each of some others (`add_pairs`), and the names of those that
//!   serve (`add_servers`, `serves_if_any`): exactly these, and only some of them where memory runs out.
//! - `broken_of`: a need by its cells, as an audit lists it.
//! - `is_asked_of_two`, `may_be_paired`: whether a rule is asked of two rows, and whether a row may be
//!   one of these.
#![tactic(auto)]

mod asks;
mod blocking;
mod candidates;
mod changers;
mod lives;
mod living;
mod member_changes;
mod named_versions;
mod naming;
mod root_versions;
mod serving;
mod set_parts;
mod versions;
mod witnesses;

pub use asks::{is_asked_of_two, may_be_paired};
pub use lives::{are_opposed, are_same, is_living, is_named};
pub use living::broken_of;
pub use member_changes::{Members, add_cells};
pub use root_versions::RootVersions;
pub use set_parts::sets_at;
pub use versions::{Version, held_if_any};
