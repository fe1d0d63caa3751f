//! Tests of offices that dice make: their plans, whose merges are then given in every order; and plans and steps where LIVE and kept
//! workspaces break rules from the start.
#![tactic(auto)]

#[cfg(test)]
mod edits;
#[cfg(test)]
mod old_error_plans;
#[cfg(test)]
mod old_error_steps;
#[cfg(test)]
mod old_errors;
#[cfg(test)]
mod plans;
