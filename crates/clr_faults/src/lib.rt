//! Where the fault of an office text is: the item whose own reading answers it.
//!
//! - `find_fault` [`none`, `told`, `at`]: whether an office text can be read; else the reader's own
//!   fault, and the item that it stands at: the innermost one whose own reading answers just this
//!   fault, the first of its list, where all before it can be read. It is the whole text where the
//!   reading of no item answers it.
//! - `row_fault_at`, `rule_fault_of`, `known_need_fault_of` and `schema_fault_of`: exactly the fault of the row, of the book of
//!   rules, of the known needs or of the tables that the reader of offices drops. `names_without_fault_are_needs`: a name has a
//!   fault exactly where the reader refuses it.
//! - `item_in`: exactly the item at a place of the list at a key, or none where there is no such list or item.
//! - `first_faults_are_first` [`alone`, `rows`, `cells`, `workspaces`]: what a first fault says of the item and of those before
//!   it.
#![tactic(auto)]

mod cell_lists;
mod finding;
mod first_faults;
mod inner_faults;
mod item_kinds;
mod items;
mod known_faults;
mod laws;
mod mark_lists;
mod marks;
mod memory;
mod parts;
mod read_parts;
mod rule_lists;
mod spots;
mod texts;
mod workspace_lists;
mod workspaces;

pub use finding::{Found, find_fault};
pub use inner_faults::{row_fault_at, rule_fault_of, schema_fault_of};
pub use items::item_in;
pub use known_faults::{BadNeed, NeedFault, known_need_fault_of};
pub use laws::{first_faults_are_first, names_without_fault_are_needs};
pub use memory::unless_lost;
pub use spots::FaultyItem;
