//! Tests of checks, plans, runs under certificates, office texts, and whole runs of the program while memory is wanting, by public calls.
//! Offices, scripts and certificates are texts, and so is what is answered.
#![tactic(auto)]

#[cfg(test)]
mod answers;
#[cfg(test)]
mod refused_asks;
#[cfg(test)]
mod refused_runs;
#[cfg(test)]
mod scarce_checks;
#[cfg(test)]
mod scarce_offices;
#[cfg(test)]
mod scarce_plans;
#[cfg(test)]
mod scarce_runs;
#[cfg(test)]
mod scarce_texts;
#[cfg(test)]
mod settings;
