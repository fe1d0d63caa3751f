//! Open needs whose help comes late where members come in the order of their positions.

ghost use Rattle.std.specs.Prelude.{◌≡◌, nat_lt, length, MatchOption};
ghost use Rattle.std.specs.List.{list_any};
ghost use Rattle.clr_listed_covers.specs.Late.{AreHelpedInList, IsEndOf, IsLateAt, is_helped_in_list};

use clr_order_search::OpenNeed;

/// Tests whether a member stands before one of some others.
fn is_before_one(member: u16, others: &[u16]) -> bool
    ensures { result ≡ list_any (nat_lt member) others.now }
{
    others.iter().any(|other| member < *other)
}

/// Tests whether a helper of a need stands before one of its blockers.
fn is_helped_in_list(need: &OpenNeed) -> bool
    ensures { result ≡ is_helped_in_list need.now }
{
    need.helpers
        .iter()
        .any(|helper| is_before_one(*helper, need.blockers.as_slice()))
}

/// Returns the place of the first need of which no helper stands before a blocker, if there is one.
pub(crate) fn first_late(needs: &[OpenNeed]) -> Option<usize>
    ensures { MatchOption result (AreHelpedInList needs.now (length needs.now)) (IsLateAt needs.now) }
{
    for at in 0..needs.len() {
        if !is_helped_in_list(&needs[at]) {
            return Some(at);
        }
    }
    None
}

/// Returns how many members there are up to the last of some.
pub(crate) fn end_of(members: &[u16]) -> usize
    ensures { IsEndOf members.now result }
{
    let mut end = 0;
    for member in members {
        if end <= *member as usize {
            end = *member as usize + 1;
        }
    }
    end
}
