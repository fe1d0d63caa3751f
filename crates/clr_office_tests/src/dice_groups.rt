//! Two hundred offices that dice make, whose groups and pairs are those of the definition.

use crate::dice_offices::{MadeUp, NETWORK, made_up, only};
use crate::merge_sets::groups_of;
use crate::plain::{are_dependent, group_of, needs_of};
use clr_call_test_kit::Dice;
use clr_engine::Office;
use clr_independence::{Independence, MemberPair, independence_of};
use clr_office_test_kit::{office_of, perform_script};
use std::alloc::Global;
use std::test::Fail;

const NAMES: [&str; 5] = ["W1", "W2", "W3", "W4", "W5"];

/// Returns the set of the members of a group.
fn set_of(group: &[u16]) -> u16 {
    let mut set = 0;
    for member in group {
        set |= only(usize::from(*member));
    }
    set
}

/// Returns whether a group has exactly those whom chains join to each of its members.
fn is_group(needs: &[u16], group: &[u16]) -> bool {
    let set = set_of(group);
    !group.is_empty()
        && group.iter().all(|member| group_of(needs, only(usize::from(*member))) == set)
}

/// Returns whether these are the groups, and each of the five members stands in one.
fn are_groups(needs: &[u16], groups: &[Vec<u16>]) -> bool {
    let mut seen = 0;
    for group in groups {
        let set = set_of(group.as_slice());
        if !is_group(needs, group.as_slice()) || seen & set != 0 {
            return false;
        }
        seen |= set;
    }
    seen == 31
}

/// Returns whether two members are told independent where no need involves both.
fn is_pair(needs: &[u16], pair: &MemberPair) -> bool {
    let both = only(pair.first) | only(pair.second);
    pair.independent != are_dependent(needs, both)
}

/// Returns how many pairs are dependent, where each is told as the definition says.
fn dependent_in(alloc: Global, office: &Office, needs: &[u16]) -> Option<usize> {
    match independence_of(alloc, office, "LIVE", &NAMES) {
        Ok(Independence::Pairs(pairs)) if pairs.iter().all(|pair| is_pair(needs, pair)) => {
            Some(pairs.iter().filter(|pair| !pair.independent).count())
        }
        _ => None,
    }
}

/// Returns how many groups and dependent pairs there are, where these are those of the definition.
fn found_in(alloc: Global, office: &Office, needs: &[u16]) -> Option<(usize, usize)> {
    let groups = groups_of(alloc, office, &NAMES)?;
    if are_groups(needs, groups.as_slice()) {
        Some((groups.len(), dependent_in(alloc, office, needs)?))
    } else {
        None
    }
}

/// Returns how many groups and dependent pairs an office has after a script, each command of which is done.
fn found_after(alloc: Global, office: &mut Office, made: &MadeUp) -> Option<(usize, usize)> {
    let needs = needs_of(alloc, made.versions.as_slice()).ok()?;
    if perform_script(alloc, office, made.script.as_str())? {
        found_in(alloc, office, needs.as_slice())
    } else {
        None
    }
}

/// Returns how many groups and dependent pairs the office that a seed makes has.
fn found_of(alloc: Global, seed: u64) -> Option<(usize, usize)> {
    let mut dice = Dice::new(seed);
    let made = made_up(alloc, &mut dice).ok()?;
    match office_of(alloc, NETWORK) {
        Some(mut office) => found_after(alloc, &mut office, &made),
        None => None,
    }
}

/// Returns how many groups and dependent pairs two hundred offices have.
fn found_in_all(alloc: Global) -> Option<(usize, usize)> {
    let (mut groups, mut dependent) = (0usize, 0usize);
    for seed in 0..200 {
        let found = found_of(alloc, seed)?;
        groups = groups.saturating_add(found.0);
        dependent = dependent.saturating_add(found.1);
    }
    Some((groups, dependent))
}

/// Returns both numbers were computed by a program that is independent of this one, by the rules and all rows.
#[test]
fn groups_and_pairs_of_made_up_offices(rt: HostRuntime) -> Result<(), Fail> {
    assert_eq!(rt; found_in_all(rt.alloc()), Some((569, 633)));
    Ok(())
}
