//! The line that says why there is no layer.

ghost use Rattle.std.specs.Prelude.{◌≡◌, IfOk};
ghost use Rattle.clr_layer_faults.specs.UnfitLines.{no_table_word, unfit_line};

use std::alloc::{AllocError, Global};

/// Returns the line that says why there is no layer or no design, by a number and a word for it, and the name that the word speaks of.
pub fn unfit_line(alloc: Global, why: &[u8], name: &[u8]) -> Result<Vec<u8>, AllocError>
    ensures { IfOk result (λ line. line.items ≡ unfit_line why.now name.now) }
{
    let mut line = Vec::from_slice(alloc, b"unfit ")?;
    line.extend_from_slice(why)?;
    line.push(b' ')?;
    line.extend_from_slice(name)?;
    line.push(b'\n')?;
    Ok(line)
}

/// Returns the line that says that no table has this name.
pub fn no_table_line(alloc: Global, name: &str) -> Result<Vec<u8>, AllocError>
    ensures { IfOk result (λ line. line.items ≡ unfit_line no_table_word name.now) }
{
    unfit_line(alloc, b"8 NoTable", name.as_bytes())
}
