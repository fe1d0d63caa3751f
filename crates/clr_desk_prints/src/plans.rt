//! Plans of members.
ghost use Rattle.std.specs.Prelude.{map};
ghost use Rattle.clr_office.specs.MergeSetNames.{merge_set};
ghost use Rattle.clr_office.specs.Outcomes.{IsPlanned};

use clr_office::{Office, Plan, plan};
use std::alloc::Global;

/// Returns the plan of members of a root, with what it promises.
pub fn plan_members(alloc: Global, office: &Office, root: &str, members: &[&str]) -> Plan
    ensures { IsPlanned office.now (merge_set root.now (map (λ name. name.now) members.now)) result }
{
    plan(alloc, office, root, members)
}
