//! What is said of an office text that can't be read: the fault, its place, a sentence and a hint.
//!
//! - `explain_office` [`none`, `told`, `at`]: whether an office text can be read; else the reader's own fault, and a remark on the item that
//!   has it, the first of its list whose own reading answers this fault. Its path is exactly the steps to the item and on to the value that
//!   is wrong (`place_text`), and its sentence and hint are exactly what is told of that (`TellsFault`): of the first field that isn't what
//!   must stand there, of just the fault that the reader drops, of the first known need that its rule can't have, and of the first
//!   name that the schema hasn't. Of a text that is no JSON it says where that stops being JSON (`IsJsonRemark`).
//! - `paths_lead_to_values`: each path leads to a value of the text, and no step to a value is left out.
//! - `explain_standing` [`none`, `told`]: of a text that can be read, the fault of its workspaces as a whole, and the first that has it.
//! - `office_fault_words`: the word `office`, and the number and the name of a fault.
//!
//! Lines and columns are those of the byte at which a value is looked for, which is tested.
#![tactic(auto)]

mod fault_words;
mod field_slips;
mod inner_slips;
mod items;
mod known_slips;
mod laws;
mod offices;
mod places;
mod readings;
mod repeated;
mod spots;
mod standing;

pub use fault_words::office_fault_words;
pub use laws::paths_lead_to_values;
pub use offices::{OfficeFault, explain_office};
pub use standing::explain_standing;
