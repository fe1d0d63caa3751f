//! Lists that a plan in order keeps: who goes before whom, and first positions.

ghost use Rattle.std.specs.Prelude.{◌≡◌, IfOk, map};
ghost use Rattle.std.specs.List.{range_with_len};
ghost use Rattle.clr_ordered_plans.specs.Listed.{precedence_of};

use clr_cert::{Precedence, Precedences};
use clr_member_changes::member_name;
use clr_order_answers::Pair;
use clr_rows::Words;
use std::alloc::{AllocError, Global};

/// Returns the precedence of a pair of members: the names of the two.
fn precedence(alloc: Global, members: &[&str], pair: Pair) -> Result<Precedence, AllocError>
    ensures { IfOk result (λ p. p ≡ precedence_of (map (λ name. name.now) members.now) pair) }
{
    let earlier = Words::from_str(alloc, member_name(members, pair.earlier as usize))?;
    let later = Words::from_str(alloc, member_name(members, pair.later as usize))?;
    Ok(Precedence { earlier, later })
}

/// Returns the precedences of some pairs of members, in their order: of each pair the names of the two, of which the first goes before the
/// second. A position past the last member has the empty name. It fails only for want of memory.
pub fn precedences_of_pairs(
    alloc: Global,
    members: &[&str],
    pairs: &[Pair],
) -> Result<Precedences, AllocError>
    ensures { IfOk result (λ before. before ≡ map (precedence_of (map (λ name. name.now) members.now)) pairs.now) }
{
    let mut list = Vec::with_capacity(alloc, pairs.len())?;
    for pair in pairs {
        list.push(precedence(alloc, members, *pair)?)?;
    }
    Ok(Precedences::new(list))
}

/// Returns the first positions, up to a number of them.
pub(crate) fn first_positions(alloc: Global, count: usize) -> Result<Vec<usize>, AllocError>
    ensures { IfOk result (λ list. list.items ≡ range_with_len 0 count) }
{
    let mut list = Vec::new(alloc);
    for position in 0..count {
        list.push(position)?;
    }
    Ok(list)
}
