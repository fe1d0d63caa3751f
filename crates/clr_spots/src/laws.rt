//! Laws of spots, each proved by a function that does nothing.

ghost use Rattle.clr_spots.specs.Laws.{SquaresLaw, SpotsDiffer, SubjectsShare, ServersShare, SharedBothWays};

/// The squares of a box, its least corner below its most, are exactly those that meet it.
pub fn squares_of_a_box()
    ensures { SquaresLaw }
{}

/// A row has each of its spots under a rule once.
#[tactic(auto, using(crate::proofs::DistinctSpots::spots_differ))]
pub fn spots_stand_once()
    ensures { SpotsDiffer }
{}

/// Two subjects of a need share a spot, or one of them is wide, where the rule's distance, if it has
/// one, is within its range.
pub fn subjects_share_spots()
    ensures { SubjectsShare }
{}

/// A row that serves subjects shares a spot with each of them, or one of the two is wide.
pub fn servers_share_spots()
    ensures { ServersShare }
{}

/// Two rows share a spot in either order.
pub fn spots_are_shared_both_ways()
    ensures { SharedBothWays }
{}
