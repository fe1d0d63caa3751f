//! The least broken need of a content that isn't among known ones.

ghost use Rattle.std.specs.Prelude.{◌≡◌, IfOk};
ghost use Rattle.std.specs.List.Sorted.{IsStrictlySortedBy};
ghost use Rattle.clr_rules.specs.Books.{FitsContent};
ghost use Rattle.clr_rules.specs.Needs.{broken_cmp};
ghost use Rattle.clr_audit.specs.Unknown.{first_beside, first_unknown, is_known};

use crate::audits::{audit, first_broken};
use clr_rows::Sheet;
use clr_rules::{Broken, RuleBook};
use clr_spots::put_in_order;
use std::alloc::{AllocError, Global};

/// Returns whether a need is among known ones, which are in order.
fn is_known(known: &[Broken], need: &Broken) -> bool
    requires { IsStrictlySortedBy broken_cmp known.now }
    ensures { result ≡ is_known known.now need.now }
{
    known.binary_search(need).is_ok()
}

/// Returns the first of some needs that isn't among known ones, which are in order.
fn first_beside(known: &[Broken], needs: &[Broken]) -> Option<Broken>
    requires { IsStrictlySortedBy broken_cmp known.now }
    ensures { result ≡ first_beside known.now needs.now }
{
    for need in needs {
        if !is_known(known, need) {
            return Some(*need);
        }
    }
    None
}

/// Returns the least broken need of a content that isn't among known ones, or none where each is
/// known. The known ones may be in any order, be there twice, or not be broken. The book and the
/// rows fit one schema.
/// For example, where mains 1 and 2 break rule 0, and mains 1 and 3 break rule 1, it returns the need of mains 1 and 3
/// if that of mains 1 and 2 is known.
pub fn first_unknown(
    alloc: Global,
    book: &RuleBook,
    sheet: &Sheet,
    known: &[Broken],
) -> Result<Option<Broken>, AllocError>
    requires { FitsContent book.now sheet.now }
    ensures { IfOk result (λ need. need ≡ first_unknown book.now known.now sheet.now) }
{
    if known.is_empty() {
        return first_broken(alloc, book, sheet);
    }
    let mut in_order = Vec::from_slice(alloc, known)?;
    put_in_order(&mut in_order);
    let needs = audit(alloc, book, sheet)?;
    Ok(first_beside(in_order.as_slice(), needs.as_slice()))
}
