//! Tests of office texts: what is read of them, which fault one has that can't be read, and where it is, by public calls.
#![tactic(auto)]

#[cfg(test)]
mod office_faults;
#[cfg(test)]
mod office_texts;
#[cfg(test)]
mod questions;
