//! The law of the states of members, proved by a function that does nothing.

ghost use Rattle.clr_board.specs.Laws.{StatesTellPlans};

/// Whatever members can be merged in every order, they can be so with a free one, memory aside, if all of them were looked at. A member that waits,
/// that nobody helps, or that is in conflict can't be merged in every order even alone. One that clashes can be merged alone.
pub fn states_tell_plans()
    ensures { StatesTellPlans }
{}
