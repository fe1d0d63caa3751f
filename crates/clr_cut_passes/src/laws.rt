//! Laws of passes by their counts, each proved by a function that does nothing.

ghost use Rattle.clr_cut_passes.specs.Laws.{CleanLaw, OfficeLaw, PartsLaw};

/// A pass over rows, of which no two are of one cell, is clean just where of each of them the cut has it
/// or it is beyond the cut, and each row of the cut is among them. The counts of passes over parts of the
/// rows make those of one over all. So an office with the rows of some cells alone is cut out of the whole
/// where a pass over all rows of the whole's root, each once, is clean.
pub fn counts_show_cuts()
    ensures clean { CleanLaw }
    ensures parts { PartsLaw }
    ensures office { OfficeLaw }
{}
