//! Tests of both finders of rows, by public calls.
#![tactic(auto)]

#[cfg(test)]
mod changes;
#[cfg(test)]
mod network;
#[cfg(test)]
mod refused_notes;
#[cfg(test)]
mod refused_searches;
#[cfg(test)]
mod sharing;
