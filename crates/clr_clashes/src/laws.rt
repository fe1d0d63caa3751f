//! The laws of clashes, each proved by a function that does nothing.

ghost use Rattle.clr_clashes.specs.Laws.{ClashesDecideSubsets, ListedClashesDecideSubsets, PartsBreakListedNeeds};

/// Where no cell is changed by two members, each touched need of some of the members is covered, in the scene of these alone,
/// exactly where they hold none of the smallest clashes of all members. The smallest clashes tell of each subset whether it is
/// covered.
pub fn clashes_decide_subsets()
    ensures { ClashesDecideSubsets }
{}

/// Where no cell is changed by two members, a list of the smallest clashes tells of each subset of the members whether it is
/// covered: exactly where it holds none of the list.
pub fn listed_clashes_decide_subsets()
    ensures { ListedClashesDecideSubsets }
{}

/// Where no cell is changed by two members, the broken needs of all members tell which need some of them break first, and which of
/// them break it: the first that is listed of which they hold all members that break it.
pub fn parts_break_listed_needs()
    ensures { PartsBreakListedNeeds }
{}
