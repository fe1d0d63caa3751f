//! Laws of answers, each proved by a function that does nothing.

ghost use Rattle.clr_order_answers.specs.Laws.{KeptPairsLaw, UnhelpedLaw};

/// Each order of all members in which the first of each pair goes before the second works, where each
/// need that only members block has a pair of a helper and a blocker.
pub fn kept_pairs_work()
    ensures { KeptPairsLaw }
{}

/// Where only members block a need and no member helps it, no order works: once all members are
/// merged the need is broken.
pub fn unhelped_needs_break()
    ensures { UnhelpedLaw }
{}
