//! Entries of a certificate in the order of needs, so that those of a need are found by a search.

ghost use Rattle.std.specs.Prelude.{◌↔◌, Contains, IfOk};
ghost use Rattle.clr_cert.specs.declared.certificates.Entry.{Entry as OneEntry};
ghost use Rattle.clr_check.specs.Entries.{IsEntryOf, RiseByNeed};

use clr_cert::Entry;
use clr_needs::Need;
use std::alloc::{AllocError, Global};

/// Returns the entries in the order of their needs.
pub(crate) fn sort_entries(alloc: Global, entries: &[Entry]) -> Result<Vec<Entry>, AllocError>
    ensures same { IfOk result (λ list. (e : OneEntry) → Contains list.items e ↔ Contains entries.now e) }
    ensures rising { IfOk result (λ list. RiseByNeed list.items) }
{
    let mut list = Vec::from_slice(alloc, entries)?;
    list.sort_unstable_by_key(|entry| entry.need);
    Ok(list)
}

/// Returns the entries of a need, among entries by need.
pub(crate) fn entries_of<'a>(entries: &'a [Entry], need: &Need) -> &'a [Entry]
    requires { RiseByNeed entries.now }
    ensures { (e : OneEntry) → Contains result.now e ↔ IsEntryOf entries.entry.now need.now e }
{
    let from = entries.partition_point(|entry| entry.need.cmp(need).is_lt());
    let to = entries.partition_point(|entry| entry.need.cmp(need).is_le());
    let rest = entries.split_at(from).1;
    rest.split_at(to - from).0
}
