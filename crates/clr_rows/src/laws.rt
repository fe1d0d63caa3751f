//! Laws of what changes between contents, each proved by a function that does nothing.

ghost use Rattle.clr_rows.specs.Laws.{ChangesLaw, OverLaw};

/// The changes between two contents are, at each cell, both rows where they differ.
pub fn changes_law()
    ensures { ChangesLaw }
{}

/// A content taken over by changes has at each changed cell the row after the change, and its own row at all others.
pub fn over_law()
    ensures { OverLaw }
{}
