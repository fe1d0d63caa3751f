//! Laws of standings, proved by a function that does nothing.

ghost use Rattle.clr_cut_rows.specs.Laws.{NewStandingsLaw, StandingsLaw};

/// Where each row of a cut is among all rows of a root, and of each of these the cut has it or it is
/// beyond the cut, the rows are a cut of that root; for groups they also have all that are tied to
/// members. Where another root still has them, and of each of its rows that are new the cut has it or it
/// is beyond the cut, they are a cut of that root too.
pub fn standings_show_a_cut()
    ensures rows { StandingsLaw }
    ensures change { NewStandingsLaw }
{}
