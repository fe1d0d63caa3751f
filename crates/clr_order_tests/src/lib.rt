//! Tests of orders in which members can be merged, by public calls.
#![tactic(auto)]

#[cfg(test)]
mod answers;
#[cfg(test)]
mod circles;
#[cfg(test)]
mod dice;
#[cfg(test)]
mod knots;
#[cfg(test)]
mod permutations;
#[cfg(test)]
mod scarce_searches;
#[cfg(test)]
mod searches;
#[cfg(test)]
mod within;
