//! What stands at some positions of lists.
ghost use Rattle.std.specs.Prelude.{◌≡◌, ◌++◌, map, option_to_list, slice_get, IfOk, OnOk};
ghost use Rattle.std.specs.List.{filter_map};

use clr_change::ChangeSet;
use std::alloc::{AllocError, Global};

/// Adds the change set at a position, if there is one.
fn add_set<'a>(
    sets: &'a [ChangeSet],
    position: usize,
    list: &mut Vec<&'a ChangeSet>,
) -> Result<(), AllocError>
    ensures { OnOk result (map (λ set. set.now) list.new.items
        ≡ map (λ set. set.now) list.old.items ++ option_to_list (slice_get sets.entry.now position)) }
{
    let Some(set) = sets.get(position) else {
        return Ok(());
    };
    list.push(set)?;
    Ok(())
}

/// Returns the change sets at some positions, which aren't copied; one past the end has none. It fails only for want of memory.
pub fn sets_at<'a>(
    alloc: Global,
    sets: &'a [ChangeSet],
    positions: &[usize],
) -> Result<Vec<&'a ChangeSet>, AllocError>
    ensures { IfOk result (λ list. map (λ set. set.now) list.items ≡ filter_map (slice_get sets.entry.now) positions.now) }
{
    let mut list = Vec::with_capacity(alloc, positions.len())?;
    for position in positions {
        add_set(sets, *position, &mut list)?;
    }
    Ok(list)
}

/// Adds the number at a position, if there is one.
fn add_number(numbers: &[usize], position: u16, list: &mut Vec<usize>) -> Result<(), AllocError>
    ensures { OnOk result (list.new.items ≡ list.old.items ++ option_to_list (slice_get numbers.now position)) }
{
    let Some(number) = numbers.get(position as usize) else {
        return Ok(());
    };
    list.push(*number)?;
    Ok(())
}

/// Returns the numbers at some positions; one past the end has none.
pub(crate) fn numbers_at(
    alloc: Global,
    numbers: &[usize],
    positions: &[u16],
) -> Result<Vec<usize>, AllocError>
    ensures { IfOk result (λ list. list.items ≡ filter_map (slice_get numbers.now) positions.now) }
{
    let mut list = Vec::with_capacity(alloc, positions.len())?;
    for position in positions {
        add_number(numbers, *position, &mut list)?;
    }
    Ok(list)
}
