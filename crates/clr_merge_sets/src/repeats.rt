//! The first name of a list that stands earlier in it.

ghost use Rattle.std.specs.Prelude.{◌≡◌, ◌<◌, length};
ghost use Rattle.clr_clearance.specs.Verdicts.{first_repeated, is_repeated};

use crate::name_lists::NameList;
use std::alloc::Global;
use std::collections::BTreeSet;

/// Returns whether the name at a position stands earlier in the list.
fn stands_earlier<N: NameList>(names: &N, position: usize) -> bool
    requires { position < length (N.names names.now) }
    ensures { result ≡ is_repeated (N.names names.now) position }
{
    let name = names.name_at(position);
    for earlier in 0..position {
        if names.name_at(earlier) == name {
            return true;
        }
    }
    false
}

/// Returns the first repeated name, found by comparing each name with those before it. It takes no
/// memory.
fn first_repeated_by_pairs<N: NameList>(names: &N) -> Option<usize>
    ensures { result ≡ first_repeated (N.names names.now) }
{
    for position in 0..names.len() {
        if stands_earlier(names, position) {
            return Some(position);
        }
    }
    None
}

/// Returns the position of the first name that stands earlier in the list. The names are gathered
/// in a set; where no memory is found for it, each name is compared with those before it.
pub(crate) fn first_repeated<N: NameList>(alloc: Global, names: &N) -> Option<usize>
    ensures { result ≡ first_repeated (N.names names.now) }
{
    let mut earlier = BTreeSet::new(alloc);
    for position in 0..names.len() {
        match earlier.insert(names.name_at(position)) {
            Ok(true) => {}
            Ok(false) => return Some(position),
            Err(_) => return first_repeated_by_pairs(names),
        }
    }
    None
}
