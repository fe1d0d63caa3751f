//! Spots in their order, and as keys of a map.

use clr_row_test_kit::{number, values};
use clr_spots::Spot;
use std::alloc::Global;
use std::collections::BTreeMap;

/// Spots in ascending order: squares by their places, and values.
const ASCENDING: &str = "-1,7
0,-2
0,3
1,-9
-
-5
2
2+1
2+'
'Z+0
'a+0
'ab+0";

fn spot(alloc: Global, text: &str) -> Option<Spot> {
    match text.split_once(',') {
        Some((i, j)) => Some(Spot::Square(number(i)?, number(j)?)),
        None => Some(Spot::Values(values(alloc, text)?)),
    }
}

fn ascending_spots(alloc: Global) -> Option<Vec<Spot>> {
    let mut spots = Vec::new(alloc);
    for line in ASCENDING.lines() {
        spots.push(spot(alloc, line)?).ok()?;
    }
    Some(spots)
}

/// Returns whether two spots are in the order of their positions.
fn are_in_order(spots: &[Spot], i: usize, j: usize) -> Option<bool> {
    let (first, second) = (spots.get(i)?, spots.get(j)?);
    let order = i.cmp(&j);
    let is_so = first.cmp(second) == order && first.partial_cmp(second) == Some(order);
    Some(is_so && (first == second) == (i == j))
}

/// Returns whether all spots are in ascending order.
fn ascend(alloc: Global) -> Option<bool> {
    let spots = ascending_spots(alloc)?;
    let mut all = spots.len() == 12;
    for i in 0..spots.len() {
        for j in 0..spots.len() {
            all = are_in_order(spots.as_slice(), i, j)? && all;
        }
    }
    Some(all)
}

#[test]
fn spots_by_each_other(rt: HostRuntime) {
    assert!(rt; ascend(rt.alloc()) == Some(true));
}

/// Returns each spot with its position.
fn positions(alloc: Global) -> Option<BTreeMap<Spot, usize>> {
    let mut map = BTreeMap::new(alloc);
    for line in ASCENDING.lines() {
        let position = map.len();
        map.insert(spot(alloc, line)?, position).ok()?;
    }
    Some(map)
}

/// Returns whether each spot has its position.
fn are_keys(alloc: Global) -> Option<bool> {
    let map = positions(alloc)?;
    let mut all = map.len() == 12;
    for (i, spot) in ascending_spots(alloc)?.iter().enumerate() {
        all = map.get(spot) == Some(&i) && all;
    }
    Some(all)
}

#[test]
fn spots_as_keys(rt: HostRuntime) {
    assert!(rt; are_keys(rt.alloc()) == Some(true));
}
