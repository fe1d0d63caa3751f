//! The law of passes by look-ups of spots, proved by a function that does nothing.

ghost use Rattle.clr_settled_passes.specs.Laws.{ThreePassesLaw, TwoPassesLaw};

/// Each pass goes over all rows of a root, and puts in those that the rows so far lack: a member changes the cell, or they are found by their spots. The first
/// pass puts in the rows at cells that members change, the second those near them and near new rows, and the third what may serve these. So a fourth one
/// finds none that is lacked, whatever rows of the root the first began with, and two passes are enough where it begins with the rows at changed cells.
pub fn passes_settle()
    ensures three { ThreePassesLaw }
    ensures two { TwoPassesLaw }
{}
