//! What the definitions say over rows whose needs can be seen: mains go across or up a whole square, so that each one across
//! crosses each one up. They need a node where two cross, and at their first ends, and no node stands where another does. Every
//! version is held against every one, and every version is tried as a server. A set of members is a number with a bit for each.

use std::alloc::{AllocError, Global};

/// A node at a place, or a main across the square at a height, or up it so far from the left.
#[derive(Clone, Copy, PartialEq, Eq)]
pub(crate) enum Form {
    Node(u64, u64),
    Across(u64),
    Up(u64),
}

/// A version, the member with whom alone it lives, and the one without whom alone it does.
#[derive(Clone, Copy)]
pub(crate) struct Version {
    pub(crate) form: Form,
    pub(crate) with: u16,
    pub(crate) without: u16,
}

impl Version {
    /// Returns the member that its life names.
    fn named_member(self) -> u16 {
        self.with | self.without
    }
}

/// Returns the members named by nodes at a place.
fn named_at(versions: &[Version], x: u64, y: u64) -> u16 {
    let mut all = 0;
    for version in versions {
        if version.form == Form::Node(x, y) {
            all |= version.named_member();
        }
    }
    all
}

/// Returns the members that the need of the first end of a main involves.
fn involved_by_one(versions: &[Version], one: Version) -> u16 {
    match one.form {
        Form::Node(..) => 0,
        Form::Across(y) => one.named_member() | named_at(versions, 0, y),
        Form::Up(x) => one.named_member() | named_at(versions, x, 0),
    }
}

/// Returns the members that the need of two versions involves, where they call and may live at once. Nothing serves mains that overlap,
/// nor nodes at one place; as a version does so with itself, it is found to involve its own member, which ties it to nobody.
fn involved_by_two(versions: &[Version], one: Version, other: Version) -> u16 {
    if one.with & other.without != 0 || one.without & other.with != 0 {
        return 0;
    }
    let named = one.named_member() | other.named_member();
    match (one.form, other.form) {
        (Form::Across(y), Form::Up(x)) => named | named_at(versions, x, y),
        (Form::Up(x), Form::Across(y)) => named | named_at(versions, x, y),
        _ if one.form == other.form => named,
        _ => 0,
    }
}

/// Adds what the needs of a version involve, alone and beside each one.
fn add_needs(needs: &mut Vec<u16>, versions: &[Version], one: Version) -> Result<(), AllocError> {
    needs.push(involved_by_one(versions, one))?;
    for other in versions {
        needs.push(involved_by_two(versions, one, *other))?;
    }
    Ok(())
}

/// Returns the set of the members that each possible need involves.
pub(crate) fn needs_of(alloc: Global, versions: &[Version]) -> Result<Vec<u16>, AllocError> {
    let mut needs = Vec::new(alloc);
    for one in versions {
        add_needs(&mut needs, versions, *one)?;
    }
    Ok(needs)
}

/// Returns whether some need involves both members of a set of two.
pub(crate) fn are_dependent(needs: &[u16], both: u16) -> bool {
    needs.iter().any(|need| *need & both == both)
}

/// Returns these members with all whom a need ties to one of them.
fn with_dependents(needs: &[u16], members: u16) -> u16 {
    let mut all = members;
    for need in needs {
        if *need & all != 0 {
            all |= *need;
        }
    }
    all
}

/// Returns the set of the members that chains of dependent pairs join to a member, and this one; there are at most 16.
pub(crate) fn group_of(needs: &[u16], member: u16) -> u16 {
    let mut all = member;
    for _ in 0..16 {
        all = with_dependents(needs, all);
    }
    all
}
