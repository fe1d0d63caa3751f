//! Laws of covered and uncovered needs, each proved by a function that does nothing.

ghost use Rattle.clr_needs.specs.Laws.{CoveredByName, CoveredByPosition, NoMoreByName, NoMoreByPosition, UncoveredByName, UncoveredByPosition};
ghost use Rattle.clr_needs.specs.Laws.{FirstBrokenAfter, FirstBrokenIsListed};
ghost use Rattle.clr_needs.specs.Laws.{SayTheSame};
ghost use Rattle.clr_needs.specs.Positions.{by_position};
ghost use Rattle.clr_needs.specs.Settings.{Setting};

/// Where each touched need is covered and every rule holds in the root, every rule holds in the root
/// with the changes of any of the members over it.
pub fn covered_members_keep_rules()
    ensures by_position { CoveredByPosition }
    ensures by_name { CoveredByName }
{}

/// Where each touched need is covered, the root with the changes of more members over it breaks no
/// need but those that it breaks with fewer: what was broken before may be mended, and nothing else
/// is broken.
pub fn covered_members_break_no_more()
    ensures by_position { NoMoreByPosition }
    ensures by_name { NoMoreByName }
{}

/// A touched need that nothing covers is newly broken where the changes of its blockers are over the
/// root.
pub fn uncovered_needs_are_broken()
    ensures by_position { UncoveredByPosition }
    ensures by_name { UncoveredByName }
{}

/// Naming the members of a setting by their positions says the same as naming them otherwise. There
/// are the same versions, whose lives name the same members; the same needs are possible, served,
/// covered and broken; the same witnesses are picked; and the same members depend on one another.
pub fn positions_stand_for_names<N>()
    ensures { (c : Setting N) → SayTheSame c (by_position c) }
{}

/// The least need that the merge of one change set breaks, and that wasn't broken before, is the
/// first of those that are listed. There is none exactly where no more is broken than before.
pub fn first_broken_is_listed_first()
    ensures after { FirstBrokenAfter }
    ensures listed { FirstBrokenIsListed }
{}
