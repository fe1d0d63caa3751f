//! The law of groups, proved by a function that does nothing.

ghost use Rattle.clr_groups.specs.Laws.{GroupsSplitNeeds};

/// Where no cell is changed by two members, each touched need of all members is touched among those of
/// just one group, and no other need is touched there. The same witnesses are picked for it there, and
/// the same members break it, once those of the group are told by their positions among all.
pub fn groups_split_needs()
    ensures { GroupsSplitNeeds }
{}
