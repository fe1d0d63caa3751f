//! Why the changes of a merge set make no scene, as a verdict.

ghost use Rattle.std.specs.Prelude.{◌≡◌};
ghost use Rattle.clr_merge_sets.specs.Faults.{verdict_of};

use clr_clearance::Verdict;
use clr_needs::SceneFault;

/// Returns the verdict where change sets make no scene: the shared cell with the first two members that change it, or want of
/// memory. Where the fault is that of the members' change sets and no test of one member fails, a shared cell is the first test
/// that fails.
pub fn verdict_of(fault: SceneFault) -> Verdict
    ensures { result ≡ verdict_of fault }
{
    match fault {
        SceneFault::SharedCell {
            cell,
            first,
            second,
        } => Verdict::SharedCell {
            cell,
            first: first as usize,
            second: second as usize,
        },
        SceneFault::OutOfMemory => Verdict::OutOfMemory,
    }
}
