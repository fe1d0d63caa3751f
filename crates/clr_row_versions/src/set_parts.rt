//! Some of some change sets.

ghost use Rattle.std.specs.Prelude.{◌≡◌, ◌<◌, ℕ, length, map, Contains, IfOk};
ghost use Rattle.clr_needs.specs.Parts.{sets_at};

use clr_change::ChangeSet;
use std::alloc::{AllocError, Global};

/// Returns the change sets at some positions.
pub fn sets_at<'a>(
    alloc: Global,
    sets: &[&'a ChangeSet],
    positions: &[u16],
) -> Result<Vec<&'a ChangeSet>, AllocError>
    requires { (k : ℕ) → Contains positions.now k → k < length sets.now }
    ensures { IfOk result (λ list. map (λ s. s.now) list.items ≡ sets_at (map (λ s. s.now) sets.now) positions.now) }
{
    let mut list = Vec::with_capacity(alloc, positions.len())?;
    for position in positions {
        list.push(sets[*position as usize])?;
    }
    Ok(list)
}
