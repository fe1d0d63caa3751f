//! The plan that the cover of a scene in the order of its members decides.

ghost use Rattle.std.specs.Prelude.{IfOk, map};
ghost use Rattle.clr_merge_sets.specs.MergeSetNames.{merge_set};
ghost use Rattle.clr_ordered_plans.specs.Listed.{IsPlanOfListed};

use crate::certificates::{first_positions, precedences_of_pairs};
use clr_cert::Certificate;
use clr_clearance::Verdict;
use clr_listed_covers::ListedCover;
use clr_merge_sets::{Plan, owned_names};
use clr_rows::Words;
use std::alloc::{AllocError, Global};

/// Returns the certificate of a root and members with the pairs and entries that cover them in order, or
/// the beginning of their list that breaks a need.
pub(crate) fn plan_of_listed(
    alloc: Global,
    root: &str,
    members: &[&str],
    listed: ListedCover,
) -> Result<Plan, AllocError>
    ensures { IfOk result (IsPlanOfListed (merge_set root.now (map (λ name. name.now) members.now)) listed) }
{
    match listed {
        ListedCover::Covered { pairs, entries } => Ok(Plan::Cleared(Certificate {
            root: Words::from_str(alloc, root)?,
            members: owned_names(alloc, members)?,
            before: precedences_of_pairs(alloc, members, pairs.as_slice())?,
            entries,
        })),
        ListedCover::Broken { need, count } => Ok(Plan::Blocked {
            order: first_positions(alloc, count)?,
            cause: Verdict::Uncovered(need),
        }),
    }
}
