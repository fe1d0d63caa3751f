//! What the first fault of a list says, and the fault of a name.

ghost use Rattle.std.specs.Prelude.{List};
ghost use Rattle.clr_rows.specs.Contents.{Content};
ghost use Rattle.clr_deltas.specs.Differences.{Differences};
ghost use Rattle.clr_deltas.specs.Deltas.{Delta};
ghost use Rattle.clr_faults.specs.FirstFaults.{AloneLaw, LeftLaw};
ghost use Rattle.clr_faults.specs.KnownFaults.{NeedFaultLaw};

/// Where a list has a first fault, all items before it can be read, and the item at its place answers
/// the fault: on its own, or over the rows, the cells or the workspaces that those before it left.
pub fn first_faults_are_first()
    ensures alone { AloneLaw }
    ensures rows { LeftLaw Content }
    ensures cells { LeftLaw Differences }
    ensures workspaces { LeftLaw (List Delta) }
{}

/// The name of a known need has a fault exactly where it is no need of its rule.
pub fn names_without_fault_are_needs()
    ensures { NeedFaultLaw }
{}
