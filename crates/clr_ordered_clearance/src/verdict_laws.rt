//! Laws of verdicts under an order, each proved by a function that does nothing.

ghost use Rattle.clr_ordered_clearance.specs.VerdictLaws.{AllSettledLaw, ClearInTurnLaw, ClearLastsInTurnLaw, ClearedInTurnLaw, FirstUnsettledLaw};
ghost use Rattle.clr_ordered_clearance.specs.VerdictLaws.{ClearedWithoutOrderLaw, OneVerdictInTurnLaw, StartWithoutOrderLaw, VerdictWithoutOrderLaw};

/// A verdict under an order is clear exactly where the entries cover the members under the order and
/// who goes before another is listed before it. Then all is promised: the root with the changes over
/// it of members that have come in turn breaks no need but those that it breaks with fewer of them;
/// the members are safe, as the headline says; they can be merged as they are listed, and as every other
/// list of them has them in which who goes before another stands before it; and every run of quiet
/// commands in which merges come in turn is a cleared one.
pub fn clear_verdicts_in_turn_promise_all()
    ensures clear { ClearInTurnLaw }
    ensures cleared { ClearedInTurnLaw }
{}

/// A clear verdict lasts: after a list of quiet commands in which merges come in turn, the verdict
/// with some entries is clear on the members that still stand, with the pairs of which both do.
pub fn clear_verdicts_in_turn_last()
    ensures { ClearLastsInTurnLaw }
{}

/// No ordered merge set has two verdicts.
pub fn verdicts_in_turn_are_one()
    ensures { OneVerdictInTurnLaw }
{}

/// Where no member goes before another, the verdict is that on the merge set. A clear one promises
/// what a clear verdict on the merge set does, of merges in every order. The first commands of a list
/// that are performed are all up to one that isn't quiet.
pub fn verdicts_without_order_are_those_of_merge_sets()
    ensures verdict { VerdictWithoutOrderLaw }
    ensures cleared { ClearedWithoutOrderLaw }
    ensures start { StartWithoutOrderLaw }
{}

/// Of the touched needs of members, listed in their order, the first that no entry covers under an
/// order, and whose subjects can stand together, is the least; where each is covered, or its subjects
/// never stand together, the entries cover under the order.
pub fn verdicts_in_turn_come_need_by_need()
    ensures all { AllSettledLaw }
    ensures first { FirstUnsettledLaw }
{}
