//! Lists of positions that a plan keeps.

ghost use Rattle.std.specs.Prelude.{◌≡◌, IfOk};

use std::alloc::{AllocError, Global};

/// Returns positions of members, as positions in a list.
pub(crate) fn positions(alloc: Global, members: &[u16]) -> Result<Vec<usize>, AllocError>
    ensures { IfOk result (λ list. list.items ≡ members.now) }
{
    let mut list = Vec::with_capacity(alloc, members.len())?;
    for member in members {
        list.push(*member as usize)?;
    }
    Ok(list)
}
