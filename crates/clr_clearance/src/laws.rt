//! Laws of clearance, each proved by a function that does nothing.

ghost use Rattle.clr_clearance.specs.Laws.{ClearIsSafeLaw, ClearLaw, ClearedRunLaw, MergeLaw, OneVerdictLaw};
ghost use Rattle.clr_clearance.specs.Laws.{RootHeldLaw, NumberLaw, OrderLaw, QuietListLaw, RefreshLaw, SafeLaw, StaticLaw};

/// Members by name and by position say the same: there are the same versions, whose lives name the
/// same members, and the same needs, and the same versions serve, cover or break them.
pub fn numbers_stand_for_names()
    ensures { NumberLaw }
{}

/// Where entries cover the members, the root with the changes of more of them over it breaks no need
/// but those that it breaks with fewer, and no other member is in conflict with those rows. Where
/// every rule holds in the root, it holds with the changes of any of the members over it.
pub fn covered_members_stay_free()
    ensures free { StaticLaw }
    ensures held { RootHeldLaw }
{}

/// Where no cell is changed by two members, the changes of some members give the same rows in
/// whatever order they are taken over.
pub fn order_gives_the_same_rows()
    ensures { OrderLaw }
{}

/// A merge of a member leaves the root with that member's changes too, and every other member as it
/// was. A refresh of a member leaves the root and the changes of every member. Where the root breaks
/// no more with the changes of more members over it, neither is answered by a conflict or a broken
/// rule, and a member that was refreshed has the root's rows with its changes over them.
pub fn merges_and_refreshes_are_safe()
    ensures merge { MergeLaw }
    ensures refresh { RefreshLaw }
{}

/// After every list of commands that are quiet for the members, whichever of them found no memory,
/// the root has its first rows with the changes of the merged members over them, and each other
/// member the changes that it had.
pub fn quiet_lists_leave_merges()
    ensures { QuietListLaw }
{}

/// Where entries cover the members of a kept root, the following is so after every list of quiet
/// commands. The root breaks no need but those that it broke at first, so that every rule holds in
/// it if every rule held. It has the changes of the merged members over its first rows, and no merge
/// or refresh of a member is answered by a conflict or a broken rule.
pub fn covered_merge_sets_are_safe()
    ensures { SafeLaw }
{}

/// The verdict is clear exactly where the entries cover the members. No merge set has two verdicts on
/// the same entries.
pub fn clear_is_covered()
    ensures clear { ClearLaw }
    ensures one { OneVerdictLaw }
{}

/// Where the verdict is clear, the root breaks no more with the changes of more members over it, so
/// that every rule holds with them if every rule holds in the root, and no other member is in
/// conflict with those rows. All of it stays so over every list of quiet commands.
pub fn clear_merge_sets_are_safe()
    ensures { ClearIsSafeLaw }
{}

/// Where the verdict is clear, the first commands of a list, up to one that isn't quiet, are a run in
/// which no merge and no refresh of a member is answered by a conflict or a broken rule. Afterwards
/// the root breaks no need but those that it broke at first, so that every rule holds in it if every
/// rule held, and it has the changes of the members whose merge was done over its first rows.
pub fn cleared_runs_are_safe()
    ensures { ClearedRunLaw }
{}
