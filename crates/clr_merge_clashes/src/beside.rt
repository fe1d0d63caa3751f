//! The members that weren't looked at with the others.

ghost use Rattle.std.specs.Prelude.{◌≡◌, ◌++◌, ◌∷◌, [], filter, map, IfOk, OnOk};
ghost use Rattle.std.specs.List.{range_with_len};
ghost use Rattle.clr_merge_sets.specs.MergeSetNames.{merge_set};
ghost use Rattle.clr_merge_clashes.specs.Beside.{beside, is_beside};

use clr_merge_sets::names_at;
use std::alloc::{AllocError, Global};

/// Adds a position that isn't among those that were looked at.
fn add_beside(looked: &[usize], at: usize, list: &mut Vec<usize>) -> Result<(), AllocError>
    ensures { OnOk result (list.new.items ≡ list.old.items ++ filter (is_beside looked.now) (at ∷ [])) }
{
    if !looked.contains(&at) {
        list.push(at)?;
    }
    Ok(())
}

/// Returns the positions from 0 to below a count that weren't looked at.
fn positions_beside(alloc: Global, count: usize, looked: &[usize]) -> Result<Vec<usize>, AllocError>
    ensures { IfOk result (λ list. list.items ≡ filter (is_beside looked.now) (range_with_len 0 count)) }
{
    let mut list = Vec::new(alloc);
    for at in 0..count {
        add_beside(looked, at, &mut list)?;
    }
    Ok(list)
}

/// Returns the names of the members that weren't looked at with the others, by the positions of those that were.
pub fn members_beside<'a>(
    alloc: Global,
    members: &[&'a str],
    looked: &[usize],
) -> Result<Vec<&'a str>, AllocError>
    ensures { IfOk result (λ list. map (λ name. name.now) list.items ≡ beside (merge_set [] (map (λ name. name.now) members.now)) looked.now) }
{
    let positions = positions_beside(alloc, members.len(), looked)?;
    names_at(alloc, members, positions.as_slice())
}
