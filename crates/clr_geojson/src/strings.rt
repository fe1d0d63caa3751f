//! Texts as strings of JSON.

ghost use Rattle.std.specs.Prelude.{◌≡◌, ◌++◌, OnOk};
ghost use Rattle.json.specs.Print.{quoted};

use json::Writer;
use std::alloc::{AllocError, Global};
use std::mem;

/// Adds a text as a string of JSON, in quotation marks, with `\` before what has to be escaped. If memory runs out,
/// what was there before is dropped.
pub(crate) fn add_string(text: &mut Vec<u8>, words: &str) -> Result<(), AllocError>
    ensures { OnOk result (text.new.items ≡ text.old.items ++ quoted words.now) }
{
    let alloc: Global = *text.allocator();
    let mut writer = Writer::new(mem::replace(text, Vec::new(alloc)));
    writer.string(words)?;
    *text = writer.into_inner();
    Ok(())
}
