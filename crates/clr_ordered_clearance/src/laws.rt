//! Laws of clearance under an order, each proved by a function that does nothing.

ghost use Rattle.clr_ordered_clearance.specs.Laws.{BrokenOrderLaw, ClearedRunInTurnLaw, CoveredInTurnLaw, EveryOrderLaw, HeadlineInTurnLaw};
ghost use Rattle.clr_ordered_clearance.specs.Laws.{LastingInTurnLaw, ListedMergesLaw, NumberInTurnLaw, OneMoreInTurnLaw, RootHeldInTurnLaw};
ghost use Rattle.clr_ordered_clearance.specs.Laws.{SafeInTurnLaw, UncoveredOrderLaw, UnrefusedLaw};

/// Where entries cover the members under an order, the root with the changes over it of members that
/// have come in turn breaks no need but those that it breaks with fewer of them. Where every rule
/// holds in the root, it holds with those changes.
pub fn members_covered_in_turn_stay_free()
    ensures free { CoveredInTurnLaw }
    ensures held { RootHeldInTurnLaw }
{}

/// Members by name and by position are covered under an order alike.
pub fn numbers_stand_for_names_in_turn()
    ensures { NumberInTurnLaw }
{}

/// Where no member goes before another, entries cover under the order exactly where they cover in
/// every order, and each merge comes in turn.
pub fn without_order_is_every_order()
    ensures { EveryOrderLaw }
{}

/// Where entries cover the members of a kept root under an order, the following is so after every
/// list of quiet commands in which each merge of a member comes in turn. The root breaks no need but
/// those that it broke at first, so that every rule holds in it if every rule held. It has the changes
/// of the merged members over its first rows. No merge or refresh of a member meets a conflict, and
/// none of a member whose turn it is breaks a rule.
pub fn merge_sets_covered_in_turn_are_safe()
    ensures { SafeInTurnLaw }
{}

/// Let entries cover the members under an order. In every list of commands that are quiet for the
/// members and in which each merge of a member comes in turn, whichever of them find no memory, no
/// merge of a member is answered by a conflict or a broken rule, and no refresh of one whose turn it
/// is. After each command the root breaks no need but those that it broke at first, and every rule
/// holds in it if every rule held. In turn or not, no merge or refresh of a member is answered by a
/// conflict, and after any two quiet lists that merge the same members, and so after any two that
/// merge all, the root has the same rows.
pub fn covers_in_turn_keep_the_headline()
    ensures { HeadlineInTurnLaw }
{}

/// Let entries cover the members under an order, and let a list have exactly the members, each once, and who goes
/// before another before it. The merges of the members as this list has them are quiet, come in turn, and are all
/// done. So none of them is answered by a conflict or a broken rule.
pub fn listed_members_can_be_merged()
    ensures listed { ListedMergesLaw }
    ensures unrefused { UnrefusedLaw }
{}

/// After a list of quiet commands in which merges come in turn, some entries cover the members that
/// still stand, under the same order.
pub fn clearances_in_turn_last()
    ensures { LastingInTurnLaw }
{}

/// The first commands of a list, up to one that isn't quiet or that merges a member before its turn,
/// are a run in which no merge of a member is answered by a conflict or a broken rule. A list of quiet
/// commands in which merges come in turn, and one more that is quiet and due, is again such a list.
pub fn runs_in_turn_are_cleared()
    ensures cleared { ClearedRunInTurnLaw }
    ensures more { OneMoreInTurnLaw }
{}

/// An order of merges of members is refused if some first of them break an open need: of the merges,
/// one is answered by a conflict or a broken rule. So is an order of all members in which nothing
/// covers some touched need whose blockers can be listed.
pub fn orders_that_break_a_need_are_refused()
    ensures broken { BrokenOrderLaw }
    ensures uncovered { UncoveredOrderLaw }
{}
