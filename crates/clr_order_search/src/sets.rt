//! Sets of members as the bits of a number, and needs that are broken where the members outside a set
//! are merged.

ghost use Rattle.std.specs.Prelude.{◌≡◌, ◌<◌, ℕ, true, not, ◌&&◌, ◌==◌};
ghost use Rattle.std.specs.List.{list_all, list_any};
ghost use Rattle.clr_order_search.specs.OpenNeeds.{breaks_one, is_broken};
ghost use Rattle.clr_order_search.specs.Searching.{is_in, outside};

use crate::open_needs::OpenNeed;

/// Returns whether a member is in a set.
pub(crate) fn has_member(set: usize, member: u16) -> bool
    ensures { result ≡ is_in set member }
{
    member < 64 && (set >> member) & 1 == 1
}

/// Returns a set without one of its members.
pub(crate) fn without_member(set: usize, member: u16) -> usize
    requires few { member < 64 }
    requires there { is_in set member ≡ true }
    ensures less { result < set }
    ensures others { (m : ℕ) → is_in result m ≡ is_in set m && not (member == m) }
{
    set & !(1 << member)
}

/// Returns whether a member below a number is outside a set.
fn is_outside(count: u16, set: usize, member: u16) -> bool
    ensures { result ≡ outside count set member }
{
    member < count && !has_member(set, member)
}

/// Returns whether all of some members are outside a set.
fn are_outside(members: &[u16], count: u16, set: usize) -> bool
    ensures { result ≡ list_all (outside count set) members.now }
{
    members.iter().all(|member| is_outside(count, set, *member))
}

/// Returns whether one of some members is outside a set.
fn is_one_outside(members: &[u16], count: u16, set: usize) -> bool
    ensures { result ≡ list_any (outside count set) members.now }
{
    members.iter().any(|member| is_outside(count, set, *member))
}

/// Returns whether the need is broken where the members outside a set are merged.
fn is_broken(need: &OpenNeed, count: u16, set: usize) -> bool
    ensures { result ≡ is_broken (outside count set) need.now }
{
    are_outside(need.blockers.as_slice(), count, set)
        && !is_one_outside(need.helpers.as_slice(), count, set)
}

/// Returns whether one of the needs is broken where the members outside a set are merged.
pub(crate) fn breaks_one(needs: &[OpenNeed], count: u16, set: usize) -> bool
    ensures { result ≡ breaks_one needs.now (outside count set) }
{
    needs.iter().any(|need| is_broken(need, count, set))
}
