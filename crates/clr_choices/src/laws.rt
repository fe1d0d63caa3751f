//! Laws of members that are clearable, each proved by a function that does nothing.

ghost use Rattle.clr_choices.specs.Clearable.{PartsStayClearable, PlansTellClearable};

/// A plan for which memory was found is cleared exactly where its members are clearable.
pub fn plans_tell_clearable()
    ensures { PlansTellClearable }
{}

/// Some of the members of a root that are clearable, in whichever order, are clearable too, where none
/// is named twice.
pub fn parts_stay_clearable()
    ensures { PartsStayClearable }
{}
