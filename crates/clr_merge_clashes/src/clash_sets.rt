//! Sets of members that can't be merged together.

use clr_clearance::Verdict;

/// Members that can't be merged together, by their positions, ascending, and why. The cause numbers them from 0
/// among themselves.
#[derive(Debug, Drop)]
pub struct MergeClash {
    pub members: Vec<usize>,
    pub cause: Verdict,
}

/// All such sets that hold no other, and the members that were looked at, by their positions: those that can't be merged
/// even alone, and of the others those that change no cell which an earlier one changes. The sets tell of each subset of
/// these whether it can be merged together.
#[derive(Debug, Drop)]
pub struct MergeClashes {
    pub clashes: Vec<MergeClash>,
    pub looked: Vec<usize>,
}
