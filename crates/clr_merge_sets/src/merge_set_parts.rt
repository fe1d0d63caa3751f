//! The parts of a merge set that a check and a plan look at.

ghost use Rattle.std.specs.Prelude.{◌≤◌, length};
ghost use Rattle.clr_needs.specs.declared.limits.TheConstants.{MOST_MEMBERS};

use clr_change::ChangeSet;
use clr_grid::SpotIndex;
use clr_tree::View;

/// The rows of a root as its office shows them, the office's finder of those rows, and what each
/// member changed, in the order of the members. Nothing of this is copied.
#[derive(Drop)]
pub struct MergeSetParts<'a> {
    pub(crate) rows: View<'a>,
    pub(crate) finder: &'a SpotIndex,
    pub(crate) sets: Vec<&'a ChangeSet>,
    ghost few: { length sets.items ≤ MOST_MEMBERS },
}
