//! Laws of plans, each proved by a function that does nothing.

ghost use Rattle.clr_clearance.specs.PlanLaws.{BlockedPlanLaw, ClearedIsSafeLaw, ClearedPlanLaw, LastingCoverLaw, LastingLaw};
ghost use Rattle.clr_clearance.specs.PlanLaws.{LastingCoverReorderedLaw, LastingReorderedLaw, SafeOrderLaw, SafePlanLaw, UnpickedLaw};

/// The entries of a cleared plan, one for each touched need with the witnesses picked for it, cover
/// the members, and the members are safe.
pub fn cleared_plans_cover()
    ensures covers { ClearedPlanLaw }
    ensures safe { ClearedIsSafeLaw }
{}

/// The order of a blocked plan is refused: of the merges of its members in that order, from this
/// office and with no workspace removed, one is answered by a conflict or a broken rule.
pub fn blocked_plans_are_refused()
    ensures { BlockedPlanLaw }
{}

/// Where the members are mergeable, and no witnesses are picked for some touched need, whichever it
/// is, the members that break it make an order that is refused: of their merges, as they stand in
/// the list, one is answered by a conflict or a broken rule.
pub fn unpicked_needs_are_refused()
    ensures { UnpickedLaw }
{}

/// No order of merges of members of a safe merge set is refused. No plan for a safe merge set is blocked.
pub fn safe_merge_sets_are_never_blocked()
    ensures order { SafeOrderLaw }
    ensures plan { SafePlanLaw }
{}

/// After a list of commands that are quiet for covered members, some entries cover those that still
/// stand: they are different children of a kept root, none is in conflict with it, no cell is
/// changed by two, and each need that they touch has an entry. No plan for those members is blocked.
/// All of it holds in whichever order they are named.
pub fn clearances_last()
    ensures cover { LastingCoverLaw }
    ensures clear { LastingLaw }
    ensures cover_reordered { LastingCoverReorderedLaw }
    ensures clear_reordered { LastingReorderedLaw }
{}
