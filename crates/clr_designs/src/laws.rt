//! The laws of designs and of the scripts that make them, proved by functions that do nothing.

ghost use Rattle.clr_designs.specs.Laws.{AgainLaw, DesignLaw, EditsFitLaw, SinceLaw};
ghost use Rattle.clr_designs.specs.ReadBack.{AgainReadBackLaw, ReadBackLaw};

/// Where a workspace may be created under LIVE, the command that creates it and the one that makes in it the edits between LIVE's content and
/// another are both done. They leave the office with this one more workspace, whose base is LIVE's content and whose current content is the
/// other. The edits fit the schema where both contents do.
pub fn designs_are_made()
    ensures made { DesignLaw }
    ensures fit { EditsFitLaw }
{}

/// An office with a design that took over a copied content of LIVE is the office in which the design was made where LIVE had that content, and
/// LIVE has moved on since to what it is: over that content both commands are done. The design changes just what its content changes of the
/// copied one, and is in conflict just at the cells that LIVE changed too.
pub fn designs_were_made_since()
    ensures { SinceLaw }
{}

/// Where a workspace under LIVE may be rolled back, and may then have a content, the command that rolls it back and the one that makes in it the
/// edits between its base and this content are both done. They leave the office in which it has the base that it had, and changes just what the
/// content changes of the base; it is in conflict just at the cells that LIVE has changed of the base too.
pub fn designs_are_brought_again()
    ensures { AgainLaw }
{}

/// The text of the script that makes a design is read as the two steps that make it: one that
/// creates the workspace, and one that applies the edits.
pub fn design_script_is_read_back()
    ensures { ReadBackLaw }
{}

/// The text of the script that brings a design again is read as the two steps that do: one that rolls the workspace back to its base, and one that
/// applies the edits.
pub fn again_script_is_read_back()
    ensures { AgainReadBackLaw }
{}
