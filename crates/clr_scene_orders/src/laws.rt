//! The law of needs that no member helps, proved by a function that does nothing.

ghost use Rattle.clr_scene_orders.specs.Laws.{FinalLaw};

/// Where no member helps a touched need that nothing covers, each list of all members breaks such a need
/// on the way.
pub fn final_needs_break()
    ensures { FinalLaw }
{}
