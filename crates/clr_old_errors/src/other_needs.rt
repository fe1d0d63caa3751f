//! Needs that aren't among others.

ghost use Rattle.std.specs.Prelude.{◌≡◌, ◌↔◌, not, Contains, filter, IfOk};
ghost use Rattle.std.specs.List.Sorted.{IsStrictlySortedBy};
ghost use Rattle.clr_audit.specs.Unknown.{is_known};
ghost use Rattle.clr_rules.specs.Needs.{broken_cmp};
ghost use Rattle.clr_rules.specs.declared.needs.Broken.{Broken as OneNeed};

use clr_rules::Broken;
use clr_spots::put_in_order;
use std::alloc::{AllocError, Global};

/// Returns whether a need is among some that are in order.
pub fn is_among(needs: &[Broken], need: &Broken) -> bool
    requires { IsStrictlySortedBy broken_cmp needs.now }
    ensures { result ≡ is_known needs.now need.now }
{
    needs.binary_search(need).is_ok()
}

/// Returns those of some needs that aren't among others, which are in order.
fn others_left(
    alloc: Global,
    needs: &[Broken],
    others: &[Broken],
) -> Result<Vec<Broken>, AllocError>
    requires { IsStrictlySortedBy broken_cmp others.now }
    ensures { IfOk result (λ left. left.items ≡ filter (λ need. not (is_known others.now need)) needs.now) }
{
    let mut left = Vec::new(alloc);
    for need in needs {
        if !is_among(others, need) {
            left.push(*need)?;
        }
    }
    Ok(left)
}

/// Returns those of some needs that aren't among others, ascending, each once. The others are in order.
/// For example, of the needs of mains 1 and 2 and of mains 1 and 3 beside the first alone, it returns that of mains 1 and 3.
pub fn needs_beside(
    alloc: Global,
    needs: &[Broken],
    others: &[Broken],
) -> Result<Vec<Broken>, AllocError>
    requires { IsStrictlySortedBy broken_cmp others.now }
    ensures ascending { IfOk result (λ left. IsStrictlySortedBy broken_cmp left.items) }
    ensures exactly { IfOk result (λ left. (need : OneNeed) → Contains left.items need ↔ (Contains needs.now need × ¬ (Contains others.now need))) }
{
    let mut in_order = Vec::from_slice(alloc, needs)?;
    put_in_order(&mut in_order);
    let left = others_left(alloc, in_order.as_slice(), others)?;
    Ok(left)
}
