//! The members that are looked at.
ghost use Rattle.std.specs.Prelude.{◌≡◌, ◌++◌, ◌∷◌, [], filter, IfOk, OnOk};
ghost use Rattle.clr_merge_clashes.specs.ClashSets.{positions_of};
ghost use Rattle.clr_merge_clashes.specs.MergeClashes.{is_looked_at};

use clr_clearance::Verdict;
use std::alloc::{AllocError, Global};

/// Returns whether the member at a position is looked at: it can't be merged even alone, or is one of those that are
/// looked at together.
fn is_looked_at(causes: &[Option<Verdict>], together: &[usize], at: usize) -> bool
    ensures { result ≡ is_looked_at causes.now together.now at }
{
    match causes.get(at) {
        Some(Some(_)) => true,
        _ => together.contains(&at),
    }
}

/// Adds a position, where the member there is looked at.
fn add_looked(
    causes: &[Option<Verdict>],
    together: &[usize],
    at: usize,
    list: &mut Vec<usize>,
) -> Result<(), AllocError>
    ensures { OnOk result (list.new.items ≡ list.old.items ++ filter (is_looked_at causes.now together.now) (at ∷ [])) }
{
    if is_looked_at(causes, together, at) {
        list.push(at)?;
    }
    Ok(())
}

/// Returns the positions of the members that are looked at.
pub(crate) fn looked_of(
    alloc: Global,
    causes: &[Option<Verdict>],
    together: &[usize],
) -> Result<Vec<usize>, AllocError>
    ensures { IfOk result (λ list. list.items ≡ filter (is_looked_at causes.now together.now) (positions_of causes.now)) }
{
    let mut list = Vec::new(alloc);
    for at in 0..causes.len() {
        add_looked(causes, together, at, &mut list)?;
    }
    Ok(list)
}
