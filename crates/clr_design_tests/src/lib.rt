//! Tests of designs that are brought as layers over an office from which LIVE has moved on: the same offices as by commands in the order of
//! time, and conflicts just where both changed a row, in offices that dice make; and with little memory. Of designs that are brought again: that they are
//! as before they were edited, by the office and by the script that are printed.
#![tactic(auto)]

#[cfg(test)]
mod edits;
#[cfg(test)]
mod made_again;
#[cfg(test)]
mod made_since;
#[cfg(test)]
mod scarce_designs;
