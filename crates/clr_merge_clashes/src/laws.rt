//! The laws of the clashes of a merge set, each proved by a function that does nothing.

ghost use Rattle.clr_merge_clashes.specs.Laws.{AllAreLookedAt, ClashesDecidePlans, SetsDecidePlans};

use clr_clashes::{clashes_decide_subsets, listed_clashes_decide_subsets};

/// Of members of a root, none of them in conflict and no cell changed by two, the plan of some is cleared exactly if they hold none of a list of
/// the smallest clashes of all, memory aside. So one list says of each subset whether it can be merged in every order.
pub fn clashes_decide_plans()
    ensures { ClashesDecidePlans }
{
    listed_clashes_decide_subsets();
}

/// The members of each set that is found can't be merged together, and without one or more of them they can; no set
/// holds another. Some members aren't cleared where they hold a set; and where they hold none, and all of them were
/// looked at, they are, memory aside.
pub fn sets_decide_plans()
    ensures { SetsDecidePlans }
{
    clashes_decide_subsets();
    listed_clashes_decide_subsets();
}

/// Where no cell is changed by two members, all are looked at.
pub fn all_are_looked_at()
    ensures { AllAreLookedAt }
{}
