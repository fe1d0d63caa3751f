//! Who goes before whom in a certificate, by the positions of members.

ghost use Rattle.std.specs.Prelude.{◌≡◌, ◌&&◌, ◌||◌, ℕ, None, IfOk, OnOk, slice_get};
ghost use Rattle.clr_clearance.specs.Verdicts.{first_repeated};
ghost use Rattle.clr_merge_sets.specs.Certificates.{ordered_merge_set_of};
ghost use Rattle.clr_merge_sets.specs.PositionPairs.{SayWhoGoesBefore, is_at, is_pair, is_position, pairs_say};

use crate::name_lists::NameList;
use clr_cert::{Certificate, Precedence};
use clr_rows::Names;
use std::alloc::{AllocError, Global};

/// Two members by position, of which the first goes before the second.
#[derive(Clone, Copy, Debug, PartialEq, Eq)]
pub struct PositionPair {
    pub earlier: usize,
    pub later: usize,
}

/// Returns whether one of some pairs says that the one position goes before the other.
pub fn goes_before(pairs: &[PositionPair], earlier: usize, later: usize) -> bool
    ensures { result ≡ pairs_say pairs.now earlier later }
{
    pairs
        .iter()
        .any(|pair| pair.earlier == earlier && pair.later == later)
}

/// Returns the position of a name in a list in which no name stands twice.
fn position_of(members: &Names, name: &str) -> Option<usize>
    requires { first_repeated members.now ≡ None }
    ensures { (at : ℕ) → is_position result at ≡ is_at (slice_get members.now at) name.now }
{
    for position in 0..members.len() {
        if members.name_at(position) == name {
            return Some(position);
        }
    }
    None
}

/// Returns the positions of the names of a precedence, where both stand in a list in which no name
/// stands twice.
pub(crate) fn pair_of(members: &Names, precedence: &Precedence) -> Option<PositionPair>
    requires { first_repeated members.now ≡ None }
    ensures { (j k : ℕ) → is_pair result j k
        ≡ is_at (slice_get members.now j) precedence.now.earlier && is_at (slice_get members.now k) precedence.now.later }
{
    let earlier = position_of(members, precedence.earlier.as_str())?;
    let later = position_of(members, precedence.later.as_str())?;
    Some(PositionPair { earlier, later })
}

/// Adds the positions of the names of a precedence to some pairs, where both names stand in a list in
/// which no name stands twice.
fn add_pair(
    members: &Names,
    precedence: &Precedence,
    pairs: &mut Vec<PositionPair>,
) -> Result<(), AllocError>
    requires { first_repeated members.now ≡ None }
    ensures { OnOk result ((j k : ℕ) → pairs_say pairs.new.items j k ≡ pairs_say pairs.old.items j k
        || is_at (slice_get members.now j) precedence.now.earlier && is_at (slice_get members.now k) precedence.now.later) }
{
    let Some(pair) = pair_of(members, precedence) else {
        return Ok(());
    };
    pairs.push(pair)?;
    Ok(())
}

/// Returns who goes before whom among the members of a certificate, by position. A precedence that
/// names no member says nothing.
pub fn position_pairs(
    alloc: Global,
    certificate: &Certificate,
) -> Result<Vec<PositionPair>, AllocError>
    requires { first_repeated certificate.now.members ≡ None }
    ensures { IfOk result (λ pairs. SayWhoGoesBefore (ordered_merge_set_of certificate.now) pairs.items) }
{
    let mut pairs = Vec::new(alloc);
    for precedence in certificate.before.as_slice() {
        add_pair(&certificate.members, precedence, &mut pairs)?;
    }
    Ok(pairs)
}
