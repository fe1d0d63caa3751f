//! How many rows a design adds, changes and removes.

ghost use Rattle.std.specs.Prelude.{◌≡◌, ◌++◌, string_bytes, IfOk};
ghost use Rattle.clr_page_parts.specs.Counts.{counts_text};

use clr_member_changes::Counts;
use std::alloc::{AllocError, Global};

/// Returns how many rows are added, changed and removed.
pub fn counts_words(alloc: Global, counts: Counts) -> Result<String, AllocError>
    ensures { IfOk result (λ text. string_bytes text ≡ counts_text counts) }
{
    let added = counts.added;
    let changed = counts.changed;
    let removed = counts.removed;
    let mut text = String::new(alloc);
    write!(text, "{added}")?;
    text.push_str(" added, ")?;
    write!(text, "{changed}")?;
    text.push_str(" changed, ")?;
    write!(text, "{removed}")?;
    text.push_str(" removed")?;
    Ok(text)
}
