//! Tests of rules, spots and audits, by their public calls.
#![tactic(auto)]

#[cfg(test)]
mod answers;
#[cfg(test)]
mod audits;
#[cfg(test)]
mod cases;
#[cfg(test)]
mod lists;
#[cfg(test)]
mod needs;
#[cfg(test)]
mod networks;
#[cfg(test)]
mod one_rule;
#[cfg(test)]
mod rule_texts;
#[cfg(test)]
mod spot_order;
#[cfg(test)]
mod texts;
