//! Laws of rows that are found by their spots, each proved by a function that does nothing.

ghost use Rattle.clr_reach.specs.Laws.{FoundForGroupsLaw, FoundLaw, GroupPassLaw, TestLaw};

/// Each row in reach of a cut is found by its spots from the versions of the cut; for groups, so is
/// each row that is a subject of a member's tie or serves one.
pub fn rows_in_reach_are_found()
    ensures plans { FoundLaw }
    ensures groups { FoundForGroupsLaw }
{}

/// A test that takes each row which is found takes each row in reach, so passes by it make cuts, and
/// one that answers none shows one: for groups also one with all rows that are tied to members.
pub fn passes_by_spots_make_cuts()
    ensures test { TestLaw }
    ensures groups { GroupPassLaw }
{}
