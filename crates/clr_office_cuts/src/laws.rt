//! Laws of cut offices, each proved by a function that does nothing.

ghost use Rattle.clr_office_cuts.specs.Laws.{CellsLaw, OfficeCutLaw, PassLaw, PromiseLaw, ThreePassesLaw};

/// A merge set has the same verdicts and plans in a cut office and in the whole.
pub fn cut_offices_answer_for_the_whole()
    ensures { OfficeCutLaw }
{}

/// Where the verdict over a cut office is clear, the headline holds of the whole: of every list of
/// quiet commands there, with its other rows and workspaces. What clears a plan over the cut covers
/// the members in the whole, and the order of a blocked one is refused there.
pub fn cut_offices_promise_for_the_whole()
    ensures { PromiseLaw }
{}

/// An office with the rows of some cells alone is cut out of the whole, where the rows of its root
/// are a cut and each changed cell is one of these.
pub fn offices_of_cells_are_cut_out()
    ensures { CellsLaw }
{}

/// An office with the rows of some cells alone is cut out of the whole, where a pass over all rows of
/// the whole's root answers none, and where three passes led to the rows of its root. Each is asked of
/// the office alone, and of a list of rows.
pub fn passes_cut_offices_out()
    ensures none { PassLaw }
    ensures three { ThreePassesLaw }
{}
