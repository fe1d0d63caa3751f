//! Tests of rows, segments and change sets, by their public calls.
#![tactic(auto)]

#[cfg(test)]
mod answers;
#[cfg(test)]
mod cases;
#[cfg(test)]
mod changes;
#[cfg(test)]
mod copies;
#[cfg(test)]
mod places;
#[cfg(test)]
mod schemas;
#[cfg(test)]
mod segments;
#[cfg(test)]
mod sheets;
#[cfg(test)]
mod texts;
