//! The answers of the second program about old errors: needs that are broken in an office and may stay so, since they are known by name.
//!
//! - `answer_accept`: the office of a text with just its broken needs as known (`IsAccepted`), whether they were known before or not.
//! - `answer_mended`: the known needs of a text that aren't broken any more (`AreMended`).
//! - `admitted`: the office of a draft, with all that is broken in it as known. `open_known`: that of a text, whatever is broken in it,
//!   with the needs that the text knows.
//! - `accepted_print`: the text of an office with its errors accepted, and as notes how many they are, by rule (`IsAcceptedPrint`).
#![tactic(auto)]

mod accepting;
mod mended;

pub use accepting::{KnownOffice, accepted_print, admitted, answer_accept, open_known};
pub use mended::answer_mended;
