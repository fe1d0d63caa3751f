//! Laws of answers of which there is only one, each proved by a function that does nothing.

ghost use Rattle.clr_clearance.specs.OneAnswer.{OneBlockedLaw, OneClearedLaw, OneKindLaw, OneStartLaw, OneUnfitLaw};

/// No merge set has two plans: it is unfit for one reason, cleared by one list of entries, or blocked in
/// one order and for one cause, and no two of these.
pub fn merge_sets_have_one_plan()
    ensures kind { OneKindLaw }
    ensures unfit { OneUnfitLaw }
    ensures cleared { OneClearedLaw }
    ensures blocked { OneBlockedLaw }
{}

/// Where memory is found for each command, there is one way to answer the first commands of a list,
/// up to one that isn't quiet. They leave one office, and end at one command.
pub fn lists_have_one_quiet_start()
    ensures { OneStartLaw }
{}
