//! Sets of members that can't be merged together, each with the members that help it.
ghost use Rattle.std.specs.Prelude.{IfOk};
ghost use Rattle.clr_merge_sets.specs.MemberChanges.{AreMembers, set_of};
ghost use Rattle.clr_clash_helpers.specs.Helpers.{AreHelped, AreHelpersIn};

use crate::listing::helpers_of;
use clr_clearance::Verdict;
use clr_engine::Office;
use clr_member_changes::MemberChanges;
use clr_merge_clashes::MergeClash;
use std::alloc::{AllocError, Global};

/// A set of members that can't be merged together, and the members that help it, by their positions, ascending.
#[derive(Drop)]
pub struct HelpedClash<'a> {
    pub clash: &'a MergeClash,
    pub helpers: Vec<usize>,
}

/// Returns the members that help a set.
fn helpers_in(
    alloc: Global,
    office: &Office,
    members: &MemberChanges<'_>,
    clash: &MergeClash,
) -> Result<Vec<usize>, AllocError>
    requires { AreMembers office.now (set_of members.now) members.now }
    ensures { IfOk result (λ list. AreHelpersIn office.now (set_of members.now) clash.now.members.items clash.now.cause list.items) }
{
    match &clash.cause {
        Verdict::Uncovered(need) => {
            helpers_of(alloc, office, members, clash.members.as_slice(), need)
        }
        _ => Ok(Vec::new(alloc)),
    }
}

/// Returns sets of members that can't be merged together, each with the members that help it: where its cause is a need,
/// those that `helpers_of` finds, and otherwise none.
pub fn helped_clashes<'a>(
    alloc: Global,
    office: &Office,
    members: &MemberChanges<'_>,
    clashes: &'a [MergeClash],
) -> Result<Vec<HelpedClash<'a>>, AllocError>
    requires { AreMembers office.now (set_of members.now) members.now }
    ensures { IfOk result (λ list. AreHelped office.now (set_of members.now) clashes.entry.now list.items) }
{
    let mut list = Vec::with_capacity(alloc, clashes.len())?;
    for clash in clashes {
        let helpers = helpers_in(alloc, office, members, clash)?;
        list.push(HelpedClash { clash, helpers })?;
    }
    Ok(list)
}
