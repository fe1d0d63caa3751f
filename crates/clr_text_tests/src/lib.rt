//! Tests of texts of records and of words that are read: edits, scripts, layers and command lines, of where the faults of records are, and of
//! lines of replies, by public calls.
#![tactic(auto)]

#[cfg(test)]
mod command_lines;
#[cfg(test)]
mod layer_streams;
#[cfg(test)]
mod layers;
#[cfg(test)]
mod networks;
#[cfg(test)]
mod questions;
#[cfg(test)]
mod record_faults;
#[cfg(test)]
mod reply_lines;
#[cfg(test)]
mod script_cases;
#[cfg(test)]
mod scripts;
#[cfg(test)]
mod texts;
