//! Pairs of members that change one cell.
ghost use Rattle.std.specs.Prelude.{◌≡◌, ◌++◌, ◌∷◌, [], filter, map, option_map, option_to_list, IfOk, OnOk};
ghost use Rattle.clr_merge_clashes.specs.SharedCells.{apart_positions, earlier_clash, earlier_clashes, is_apart_at, pair_clash, shared_clashes};
ghost use Rattle.clr_merge_clashes.specs.ClashSets.{stored_clash};

use crate::shared_cells::shared_cell;
use crate::clash_sets::MergeClash;
use clr_change::ChangeSet;
use clr_clearance::Verdict;
use std::alloc::{AllocError, Global};

/// Returns two members and the least cell that both change, if there is one.
fn pair_clash(
    alloc: Global,
    sets: &[ChangeSet],
    earlier: usize,
    later: usize,
) -> Result<Option<MergeClash>, AllocError>
    ensures { IfOk result (λ pair. option_map stored_clash pair ≡ pair_clash sets.now earlier later) }
{
    if earlier >= sets.len() || later >= sets.len() {
        return Ok(None);
    }
    let Some(cell) = shared_cell(&sets[earlier], &sets[later]) else {
        return Ok(None);
    };
    let members = vec![in alloc; earlier, later]?;
    let cause = Verdict::SharedCell {
        cell,
        first: 0,
        second: 1,
    };
    Ok(Some(MergeClash { members, cause }))
}

/// Adds a member at an earlier position with the one at a later, where both change a cell.
fn add_pair(
    alloc: Global,
    sets: &[ChangeSet],
    earlier: usize,
    later: usize,
    pairs: &mut Vec<MergeClash>,
) -> Result<(), AllocError>
    ensures { OnOk result (map stored_clash pairs.new.items ≡ map stored_clash pairs.old.items ++ option_to_list (earlier_clash sets.now later earlier)) }
{
    if earlier >= later {
        return Ok(());
    }
    let Some(pair) = pair_clash(alloc, sets, earlier, later)? else {
        return Ok(());
    };
    pairs.push(pair)?;
    Ok(())
}

/// Returns the members at earlier positions that change a cell which the member at a position changes, each
/// with it.
fn earlier_clashes(
    alloc: Global,
    sets: &[ChangeSet],
    free: &[usize],
    later: usize,
) -> Result<Vec<MergeClash>, AllocError>
    ensures { IfOk result (λ pairs. map stored_clash pairs.items ≡ earlier_clashes sets.now free.now later) }
{
    let mut pairs = Vec::new(alloc);
    for earlier in free {
        add_pair(alloc, sets, *earlier, later, &mut pairs)?;
    }
    Ok(pairs)
}

/// Adds the pairs of the member at a position with earlier ones, or the position, where there are none.
fn add_member(
    alloc: Global,
    sets: &[ChangeSet],
    free: &[usize],
    later: usize,
    clashes: &mut Vec<MergeClash>,
    looked: &mut Vec<usize>,
) -> Result<(), AllocError>
    ensures clashes { OnOk result (map stored_clash clashes.new.items ≡ map stored_clash clashes.old.items ++ earlier_clashes sets.now free.now later) }
    ensures looked { OnOk result (looked.new.items ≡ looked.old.items ++ filter (is_apart_at sets.now free.now) (later ∷ [])) }
{
    let mut pairs = earlier_clashes(alloc, sets, free, later)?;
    if pairs.as_slice().is_empty() {
        looked.push(later)?;
        return Ok(());
    }
    clashes.append(&mut pairs)?;
    Ok(())
}

/// Returns the pairs of members that change one cell, and the positions of those that change none which an
/// earlier one changes.
pub(crate) fn pairs_of(
    alloc: Global,
    sets: &[ChangeSet],
    free: &[usize],
) -> Result<(Vec<MergeClash>, Vec<usize>), AllocError>
    ensures clashes { IfOk result (λ r. map stored_clash r.0.items ≡ shared_clashes sets.now free.now) }
    ensures looked { IfOk result (λ r. r.1.items ≡ apart_positions sets.now free.now) }
{
    let mut clashes = Vec::new(alloc);
    let mut looked = Vec::new(alloc);
    for later in free {
        add_member(alloc, sets, free, *later, &mut clashes, &mut looked)?;
    }
    Ok((clashes, looked))
}
