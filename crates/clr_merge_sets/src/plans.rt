//! What a planner says of a root and members.

ghost use Rattle.std.specs.Prelude.{◌≡◌};
ghost use Rattle.clr_merge_sets.specs.Plans.{is_cleared as is_cleared_plan, is_out_of_memory as is_lost_plan};

use clr_cert::Certificate;
use clr_clearance::Verdict;

/// What a planner says of a root and of members that are to be merged into it. Members are named by
/// position.
#[derive(Debug, Drop)]
pub enum Plan {
    /// The first test of names that fails.
    Unfit(Verdict),
    /// Of the merges of these members in this order, one is refused for a conflict or a broken
    /// rule. The cause is the first test that fails.
    Blocked { order: Vec<usize>, cause: Verdict },
    /// The members can be merged in every order, between other work, as the certificate shows,
    /// until a command is given that isn't quiet.
    Cleared(Certificate),
    /// No memory was found. This plan may come in place of any but `Unfit`.
    OutOfMemory,
}

impl Plan {
    /// Returns whether the members are cleared. It takes no memory.
    pub fn is_cleared(&self) -> bool
        ensures { result ≡ is_cleared_plan self.now }
    {
        match self {
            Plan::Cleared(_) => true,
            _ => false,
        }
    }

    /// Returns whether the planner found no memory. It takes none itself.
    pub fn is_out_of_memory(&self) -> bool
        ensures { result ≡ is_lost_plan self.now }
    {
        match self {
            Plan::OutOfMemory => true,
            _ => false,
        }
    }
}
