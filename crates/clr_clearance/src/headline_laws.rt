//! Laws of what a clear verdict promises of every list of quiet commands, each proved by a function that does nothing.

ghost use Rattle.clr_clearance.specs.Headline.{CoversReorderedLaw, HeadlineLaw, QuietReplyLaw, QuietRunLaw, SafeReorderedLaw};

/// Let the verdict be clear. In every list of commands that are quiet for the members, whichever of
/// them find no memory, no merge or refresh of a member is answered by a conflict or a broken rule,
/// and after each command the root breaks no need but those that it broke at first. So if every rule
/// holds in the root, every rule holds there after each command. After any two such lists that merge
/// the same members, and so after any two that merge all, the root has the same rows.
pub fn clear_keeps_the_headline()
    ensures { HeadlineLaw }
{}

/// No reply of a run of quiet commands to a merge or a refresh of a member of a safe merge set is a
/// conflict or a broken rule. Commands that `perform_all` answered, each quiet when it was given,
/// make a cleared run there.
pub fn quiet_runs_are_cleared()
    ensures reply { QuietReplyLaw }
    ensures run { QuietRunLaw }
{}

/// Whether a merge set is safe, and whether entries cover it, doesn't depend on the order in which its
/// members are named, where none is named twice.
pub fn members_stand_in_any_order()
    ensures safe { SafeReorderedLaw }
    ensures covers { CoversReorderedLaw }
{}
