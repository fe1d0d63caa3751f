//! Lines of names.
ghost use Rattle.std.specs.Prelude.{◌≡◌, map, IfOk};
ghost use Rattle.clr_desk_orders.specs.ChoicePrints.{names_line};

use clr_lines::add_count;
use std::alloc::{AllocError, Global};

/// Returns a word, how many names there are, and the names.
pub fn names_line(alloc: Global, word: &str, names: &[&str]) -> Result<Vec<u8>, AllocError>
    ensures { IfOk result (λ line. line.items ≡ names_line word.now (map (λ name. name.now) names.now)) }
{
    let mut line = Vec::from_slice(alloc, word.as_bytes())?;
    line.extend_from_slice(b" ")?;
    add_count(&mut line, names.len())?;
    for name in names {
        line.extend_from_slice(b" ")?;
        line.extend_from_slice(name.as_bytes())?;
    }
    line.extend_from_slice(b"\n")?;
    Ok(line)
}
