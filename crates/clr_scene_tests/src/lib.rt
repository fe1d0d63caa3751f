//! Tests of scenes: which needs changes touch, what serves and covers them, whom they depend on, and the smallest clashes.
#![tactic(auto)]

#[cfg(test)]
mod finders;
#[cfg(test)]
mod lines;
#[cfg(test)]
mod merge_sets;
#[cfg(test)]
mod merges;
#[cfg(test)]
mod networks;
#[cfg(test)]
mod scenes;
#[cfg(test)]
mod streets;
