//! Laws of needs that are covered under an order, each proved by a function that does nothing.

ghost use Rattle.clr_needs.specs.Settings.{Setting};
ghost use Rattle.clr_ordered_needs.specs.Laws.{CoveredBreaksNoMore, CoveredHolds, CoverIsHelp, CoversLast, UncoveredBreaks, UpToBlockersAreListed};
ghost use Rattle.clr_ordered_needs.specs.Laws.{MergesInListAreTold, NoOrderIsEveryOrder, PositionsSayTheSame, StatesAreTold};
ghost use Rattle.clr_ordered_needs.specs.Later.{Fate};
ghost use Rattle.clr_ordered_needs.specs.Turns.{Order};

/// Where each touched need is covered under an order, the root with the changes over it of members
/// that have come in turn breaks no need but those that it breaks with fewer of them. Where moreover
/// every rule holds in the root, every rule holds with those changes.
pub fn members_covered_in_turn_break_no_more<N>()
    ensures no_more { (before : Order N) (c : Setting N) → CoveredBreaksNoMore before c }
    ensures held { (before : Order N) (c : Setting N) → CoveredHolds before c }
{}

/// Under a transitive order a touched need that nothing covers is newly broken where the changes of
/// its blockers, and of the members before them, are over the root; and these have come in turn. They
/// can be listed where the blockers can.
pub fn uncovered_needs_break_in_turn<N>()
    ensures broken { (before : Order N) (c : Setting N) → UncoveredBreaks before c }
    ensures listed { (before : Order N) (c : Setting N) → UpToBlockersAreListed before c }
{}

/// A possible need is covered under an order exactly where something serves it always, or a helper
/// of it is a blocker or goes before one.
pub fn covers_are_helpers_in_turn<N>()
    ensures { (before : Order N) (c : Setting N) → CoverIsHelp before c }
{}

/// Where some members are merged, a touched need that nothing serves always is newly broken if all
/// its blockers are among them and no helper is. No more is broken than with fewer members where
/// of each touched need a blocker isn't among them, or a helper is, or something serves it always.
pub fn open_needs_tell_states<N>()
    ensures { (c : Setting N) → StatesAreTold c }
{}

/// Let all members be merged in the order of a list. Where each touched need is covered in that order,
/// later merges break no need but those that are broken after earlier ones. A touched need that
/// nothing covers in that order, and whose blockers can be listed, is newly broken after some of them.
pub fn merges_in_a_list_are_told<N>()
    ensures { (c : Setting N) → MergesInListAreTold c }
{}

/// Where some members are merged, each after those before it, and some are gone, each with those that
/// wait for it, some entries cover the members that stay, under their order.
pub fn covers_last_in_turn<N, M>()
    ensures { (before : Order N) (c : Setting N) (now_before : Order M) (next : Setting M) (fate : N → Fate M)
        → CoversLast before c now_before next fate }
{}

/// Where no member goes before another, entries cover under the order exactly where they cover in
/// every order, nothing covers exactly where nothing does in every order, and any members have come
/// in turn.
pub fn no_order_is_every_order<N>()
    ensures { (c : Setting N) → NoOrderIsEveryOrder c }
{}

/// Members by position, of whom one goes before another where it does so by name, are covered and
/// uncovered as they are by name.
pub fn positions_stand_for_names_in_turn<N>()
    ensures { (before : Order N) (c : Setting N) → PositionsSayTheSame before c }
{}
