//! Which rows a finder finds beside which.
ghost use Rattle.std.specs.Prelude.{◌≡◌};
ghost use Rattle.std.specs.FinMap as finite;

use crate::network::{CROSSING, Drawn, HYDRANT, MAIN, NODE, Network, PARTNER, Search};
use clr_grid::{ListFinder, RowFinder, SpotIndex};
use std::alloc::Global;
use std::test::Fail;

pub(crate) const FIRST: Drawn = (MAIN, 1, 0, [0, 0, 500_000, 0]);

const FAR: Drawn = (MAIN, 3, 0, [9_000_000, 9_000_000, 9_000_000, 9_000_001]);

const CROSSING_NODE: Drawn = (NODE, 9, 0, [250_000, 0, 250_000, 0]);

const CROSSING_HYDRANT: Drawn = (HYDRANT, 8, 1, [250_000, 0, 250_000, 0]);

const WIDE: Drawn = (
    MAIN,
    4,
    0,
    [-1_000_000_000, -1_000_000_000, 1_000_000_000, 1_000_000_000],
);

/// Two mains that cross, one that is far from both, and a node and a hydrant at the crossing.
pub(crate) const CROSSINGS: [Drawn; 5] = [
    FIRST,
    FAR,
    (MAIN, 2, 0, [250_000, -1_000, 250_000, 1_000]),
    CROSSING_NODE,
    CROSSING_HYDRANT,
];

/// Returns whether searches find just their cells among those rows and some more.
fn are_found<F: RowFinder>(
    alloc: Global,
    finder: &mut F,
    more: &[Drawn],
    searches: &[Search],
) -> Result<bool, Fail>
    requires { F.pending finder.old ≡ finite.empty }
{
    let network = Network::new(alloc)?;
    network.add_all(alloc, finder, &CROSSINGS)?;
    network.add_all(alloc, finder, more)?;
    network.finds_all(alloc, finder, searches)
}

/// Rows find each other where they share a square.
const SQUARES: [Search; 5] = [
    (CROSSING, false, FIRST, &[(NODE, 9), (MAIN, 1), (MAIN, 2)]),
    (CROSSING, false, FAR, &[(MAIN, 3)]),
    (
        CROSSING,
        false,
        CROSSING_NODE,
        &[(NODE, 9), (MAIN, 1), (MAIN, 2)],
    ),
    (CROSSING, true, FIRST, &[(NODE, 9)]),
    (CROSSING, true, FAR, &[]),
];

#[test]
fn rows_share_squares(rt: HostRuntime) -> Result<(), Fail> {
    let alloc = rt.alloc();
    assert!(rt; are_found(alloc, &mut SpotIndex::new(alloc), &[], &SQUARES)?);
    assert!(rt; are_found(alloc, &mut ListFinder::new(alloc), &[], &SQUARES)?);
    Ok(())
}

/// A wide main finds every row with a role, and is found by each, and a row without a role finds none.
const ALL_WITH_A_ROLE: [Search; 4] = [
    (
        CROSSING,
        false,
        WIDE,
        &[(NODE, 9), (MAIN, 1), (MAIN, 2), (MAIN, 3), (MAIN, 4)],
    ),
    (CROSSING, false, FAR, &[(MAIN, 3), (MAIN, 4)]),
    (CROSSING, true, WIDE, &[(NODE, 9)]),
    (CROSSING, false, CROSSING_HYDRANT, &[]),
];

#[test]
fn wide_rows_find_all_with_a_role(rt: HostRuntime) -> Result<(), Fail> {
    let alloc = rt.alloc();
    assert!(rt; are_found(alloc, &mut SpotIndex::new(alloc), &[WIDE], &ALL_WITH_A_ROLE)?);
    assert!(rt;
        are_found(
            alloc,
            &mut ListFinder::new(alloc),
            &[WIDE],
            &ALL_WITH_A_ROLE
        )?
    );
    Ok(())
}

/// Hydrants and mains find each other by the number of a hydrant and the key of a main.
const VALUES: [Search; 4] = [
    (
        PARTNER,
        false,
        (HYDRANT, 6, 1, [5, 5, 5, 5]),
        &[(MAIN, 1), (HYDRANT, 8)],
    ),
    (PARTNER, true, (HYDRANT, 6, 1, [5, 5, 5, 5]), &[(MAIN, 1)]),
    (
        PARTNER,
        false,
        (MAIN, 2, 0, [0, 0, 1, 1]),
        &[(MAIN, 2), (HYDRANT, 7)],
    ),
    (PARTNER, false, (NODE, 9, 1, [0, 0, 0, 0]), &[]),
];

const ANOTHER_HYDRANT: [Drawn; 1] = [(HYDRANT, 7, 2, [0, 0, 0, 0])];

#[test]
fn rows_share_values(rt: HostRuntime) -> Result<(), Fail> {
    let alloc = rt.alloc();
    assert!(rt; are_found(alloc, &mut SpotIndex::new(alloc), &ANOTHER_HYDRANT, &VALUES)?);
    assert!(rt;
        are_found(
            alloc,
            &mut ListFinder::new(alloc),
            &ANOTHER_HYDRANT,
            &VALUES
        )?
    );
    Ok(())
}
