//! The members that help others in a need.
ghost use Rattle.std.specs.Prelude.{◌<◌, length, IfOk};
ghost use Rattle.clr_needs.specs.Tests.{IsTestOf};
ghost use Rattle.clr_merge_sets.specs.MemberChanges.{AreMembers, set_of};
ghost use Rattle.clr_merge_clashes.specs.Laws.{merge_set_of_part};
ghost use Rattle.clr_clash_helpers.specs.Helpers.{AreHelpers, IsHelperAt, Touch};

use crate::helping::helps_at;
use crate::touching::touch;
use clr_engine::Office;
use clr_member_changes::MemberChanges;
use clr_merge_clashes::sets_at;
use clr_merge_sets::names_at;
use clr_needs::Need;
use std::alloc::{AllocError, Global};

/// Returns whether the members at some positions touch a need.
fn are_touching(
    alloc: Global,
    office: &Office,
    members: &MemberChanges<'_>,
    others: &[usize],
    need: &Need,
) -> Result<bool, AllocError>
    requires { AreMembers office.now (set_of members.now) members.now }
    ensures { IfOk result (λ told. IsTestOf told (Touch office.now (merge_set_of_part (set_of members.now) others.now) need.now)) }
{
    let names = names_at(alloc, members.names, others)?;
    let sets = sets_at(alloc, members.changes.as_slice(), others)?;
    touch(alloc, office, members.root, names.as_slice(), sets, need)
}

/// Returns whether the member at a position helps a need that those at others touch.
fn is_helper(
    alloc: Global,
    office: &Office,
    members: &MemberChanges<'_>,
    others: &[usize],
    need: &Need,
    at: usize,
) -> Result<bool, AllocError>
    requires members { AreMembers office.now (set_of members.now) members.now }
    requires touched { Touch office.now (merge_set_of_part (set_of members.now) others.now) need.now }
    requires member { at < length (set_of members.now).members }
    ensures { IfOk result (λ told. IsTestOf told (IsHelperAt office.now (set_of members.now) others.now need.now at)) }
{
    let mut positions = Vec::from_slice(alloc, others)?;
    positions.push(at)?;
    let names = names_at(alloc, members.names, positions.as_slice())?;
    let sets = sets_at(alloc, members.changes.as_slice(), positions.as_slice())?;
    helps_at(
        alloc,
        office,
        members.root,
        names.as_slice(),
        sets,
        need,
        others.len(),
    )
}

/// Returns the members that help a need which those at some positions touch, by position, ascending: each that can stand
/// beside these, none of them being in conflict and no cell being changed by two, and there takes a row away that the need is of, or
/// brings a row that serves it. Where these don't touch the need, there is none.
/// For example, where no two mains may have one code, member 0 inserts main 30 with the code that main 1 has, and member 1
/// gives main 1 another code, member 1 alone helps member 0.
pub fn helpers_of(
    alloc: Global,
    office: &Office,
    members: &MemberChanges<'_>,
    others: &[usize],
    need: &Need,
) -> Result<Vec<usize>, AllocError>
    requires { AreMembers office.now (set_of members.now) members.now }
    ensures { IfOk result (λ list. AreHelpers office.now (set_of members.now) others.now need.now list.items) }
{
    let mut list = Vec::new(alloc);
    if !are_touching(alloc, office, members, others, need)? {
        return Ok(list);
    }
    for at in 0..members.names.len() {
        if is_helper(alloc, office, members, others, need, at)? {
            list.push(at)?;
        }
    }
    Ok(list)
}
