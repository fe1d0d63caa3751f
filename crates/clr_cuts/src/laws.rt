//! Laws of cuts, each proved by a function that does nothing.

ghost use Rattle.clr_cuts.specs.Laws.{CutLaw, DependentLaw, ReachLaw, SafeCutLaw, TiedLaw, WholeLaw};
ghost use Rattle.clr_cuts.specs.Laws.{AuditLaw, ChangedRootLaw, OthersLaw, SplitPassLaw, PassLaw, ServedLaw, ThreePassesLaw};

/// What is covered over a safe cut is covered over the whole root. Over a cut the same needs are
/// touched as over the whole; each has the same subjects, the same rows serve it, the same witnesses
/// are picked for it, and the same members break it. The whole is a cut of itself.
pub fn cuts_answer_for_the_whole()
    ensures safe { SafeCutLaw }
    ensures cut { CutLaw }
    ensures whole { WholeLaw }
{}

/// Rows of a root that have all rows in their reach are a cut.
pub fn rows_in_reach_make_a_cut()
    ensures { ReachLaw }
{}

/// Rows of a root among which are all that are tied to members have the subjects of all needs that
/// involve one, and so the same members are dependent over them.
pub fn tied_rows_tell_dependence()
    ensures tied { TiedLaw }
    ensures dependent { DependentLaw }
{}

/// Rows of a root have all rows in their reach where a pass over all rows of the root answers none.
/// From any rows of a root three passes lead to such ones. A pass may go over one list and then over
/// another, and where the root changes, over its new rows alone.
pub fn passes_make_cuts()
    ensures none { PassLaw }
    ensures three { ThreePassesLaw }
    ensures split { SplitPassLaw }
    ensures change { ChangedRootLaw }
{}

/// Rows of a root that have what serves each need of them meet these needs just where the root does.
/// Where each need of a root is one of some such section, the broken needs of the root are those of
/// its sections.
pub fn served_rows_are_audited_alike()
    ensures rows { ServedLaw }
    ensures sections { AuditLaw }
{}

/// Where no row of other members is tied to members of a cut, or serves one of their ties, none of
/// those depends on one of these.
pub fn members_beside_a_cut_are_independent()
    ensures { OthersLaw }
{}
