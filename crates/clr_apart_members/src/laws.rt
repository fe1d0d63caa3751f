//! The law of members beside those of a cut, proved by a function that does nothing.

ghost use Rattle.clr_apart_members.specs.Laws.{OthersLaw};

use clr_cuts::members_beside_a_cut_are_independent;
use clr_reach::rows_in_reach_are_found;

/// Some members of a merge set have a cut with all rows that are tied to them, and a test takes each row that is found from the versions of this cut for groups.
/// If it takes no row of the other members, as these have it and as they have it once they are merged, no need ties a member of the one part to one of the
/// other. So they can be planned apart.
pub fn others_found_by_no_test_are_independent()
    ensures { OthersLaw }
{
    members_beside_a_cut_are_independent();
    rows_in_reach_are_found();
}
