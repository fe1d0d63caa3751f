//! Laws of tips.

ghost use Rattle.clr_tips.specs.Laws.{TipsAreFree, TipsDiffer};

/// No two workspaces are told one key of a table for rows that they are to bring, neither at once nor after one of them followed
/// its tip, while no workspace is created or removed.
pub fn tips_differ()
    ensures { TipsDiffer }
{}

/// The key that a workspace is told for a row is free in the root and in what every workspace changes.
pub fn tips_are_free()
    ensures { TipsAreFree }
{}
