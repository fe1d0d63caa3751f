//! Tests of drafts, of offices with old errors, and of an office's commands while memory is wanting, by their public calls.
#![tactic(auto)]

#[cfg(test)]
mod admissions;
#[cfg(test)]
mod builds;
#[cfg(test)]
mod known_needs;
#[cfg(test)]
mod scarce_admissions;
#[cfg(test)]
mod scarce_commands;
#[cfg(test)]
mod scarce_needs;
#[cfg(test)]
mod scarce_runs;
