//! The law of sets that nobody helps, proved by a function that does nothing.

ghost use Rattle.clr_clash_helpers.specs.Laws.{UnhelpedSetLaw};

/// Let some members break a need by themselves, and let no member help them. No list of members with all of these in it is cleared in its
/// order.
pub fn unhelped_sets_are_never_cleared()
    ensures { UnhelpedSetLaw }
{}
