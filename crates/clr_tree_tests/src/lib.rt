//! Tests of the tree of workspaces: the faults of parts, neutral differences, calls that find no memory, and random operations beside
//! whole copies of all contents.
#![tactic(auto)]

#[cfg(test)]
mod call_cases;
#[cfg(test)]
mod calls;
#[cfg(test)]
mod cases;
#[cfg(test)]
mod deltas;
#[cfg(test)]
mod live;
#[cfg(test)]
mod parts;
#[cfg(test)]
mod plain_spaces;
#[cfg(test)]
mod plain_trees;
#[cfg(test)]
mod random;
#[cfg(test)]
mod refusals;
