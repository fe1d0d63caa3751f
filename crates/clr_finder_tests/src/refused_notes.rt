//! Changes that are noted while memory is wanting.

ghost use Rattle.std.specs.Prelude.{◌≡◌};
ghost use Rattle.std.specs.FinMap as finite;

use crate::network::{CROSSING, Drawn, MAIN, Network, RowAt, row_of};
use clr_call_test_kit::Hoard;
use clr_grid::{ListFinder, RowFinder, SpotIndex};
use clr_rows::{CellId, Row};
use std::alloc::Global;
use std::test::Fail;

/// Budgets end here, in bytes.
const MOST: usize = 65_536;

/// The step from one budget to the next, in bytes.
const STEP: usize = 64;

/// Where main 2 stands.
#[derive(Clone, Copy, PartialEq, Eq)]
enum Standing {
    Nowhere,
    Before,
    After,
}

/// The cell of main 2.
const CELL: CellId = CellId {
    table: MAIN,
    key: 2,
};

/// The cell of main 1, which is noted before.
const FIRST: CellId = CellId {
    table: MAIN,
    key: 1,
};

/// Notes a row, and then a row of another cell within this many bytes, and takes over what is
/// pending. Whether the second found memory.
fn note_within<F: RowFinder>(
    network: &Network,
    finder: &mut F,
    first: &Row,
    row: &Row,
    hoard: &mut Hoard,
    budget: usize,
) -> Result<bool, Fail>
    requires { F.pending finder.old ≡ finite.empty }
    ensures { F.pending finder.new ≡ finite.empty }
{
    network.schema.fits(FIRST, first)?;
    network.schema.fits(CELL, row)?;
    finder.note(&network.book, FIRST, Some(first))?;
    let left = hoard.leave(budget);
    let noted = finder.note(&network.book, CELL, Some(row));
    hoard.give_back();
    finder.settle();
    left?;
    Ok(noted.is_ok())
}

/// Searches where main 2 stands before, where it stands after, and where main 1 stands.
const SEARCHES: [Drawn; 3] = [
    (MAIN, 3, 0, [0, 900_000, 10, 900_000]),
    (MAIN, 3, 0, [3_000_000, 0, 3_000_010, 10]),
    (MAIN, 3, 0, [0, -500_000, 10, -500_000]),
];

const MAIN_1: &[(u16, i64)] = &[(MAIN, 1)];

const MAIN_2: &[(u16, i64)] = &[(MAIN, 2)];

/// Returns whether main 2 is found where it stands alone, and main 1 is found too.
fn is_found<F: RowFinder>(
    alloc: Global,
    network: &Network,
    finder: &F,
    standing: Standing,
) -> Result<bool, Fail> {
    let (before, after): (&[(u16, i64)], &[(u16, i64)]) = match standing {
        Standing::Nowhere => (&[], &[]),
        Standing::Before => (MAIN_2, &[]),
        Standing::After => (&[], MAIN_2),
    };
    let searches = [
        (CROSSING, false, SEARCHES[0], before),
        (CROSSING, false, SEARCHES[1], after),
        (CROSSING, false, SEARCHES[2], MAIN_1),
    ];
    network.finds_all(alloc, finder, &searches)
}

/// Returns whether main 2 is found as a long main once it was noted with memory, and as it stood while
/// memory was wanting, as it is at first. Main 1 is found all the same.
fn is_taken_over<F: RowFinder>(
    alloc: Global,
    network: &Network,
    finder: &mut F,
    before: Standing,
    first: &RowAt,
    long: &RowAt,
) -> Result<bool, Fail>
    requires { F.pending finder.old ≡ finite.empty }
{
    let mut hoard = Hoard::take(alloc)?;
    for budget in (0..MOST).step_by(STEP) {
        let is_noted = note_within(network, finder, &first.row, &long.row, &mut hoard, budget)?;
        let standing = if is_noted { Standing::After } else { before };
        let is_right = is_found(alloc, network, finder, standing)?;
        if is_noted || !is_right {
            return Ok(budget > 0 && is_right);
        }
        network.take(finder, FIRST)?;
    }
    Ok(false)
}

/// Main 2 before and after, and main 1.
const SHORT: Drawn = (MAIN, 2, 0, [0, 900_000, 10, 900_000]);

const LONG: Drawn = (MAIN, 2, 0, [0, 0, 3_000_000, 0]);

const OTHER: Drawn = (MAIN, 1, 0, [0, -500_000, 10, -500_000]);

/// Returns whether a finder without rows notes a change of main 2 whole or not at all, where main 2 stands nowhere at first, or as a short main.
fn is_noted_whole<F: RowFinder>(
    alloc: Global,
    finder: &mut F,
    before: Standing,
) -> Result<bool, Fail>
    requires { F.pending finder.old ≡ finite.empty }
{
    let network = Network::new(alloc)?;
    if before == Standing::Before {
        network.add(finder, &row_of(alloc, SHORT)?)?;
    }
    let first = row_of(alloc, OTHER)?;
    let long = row_of(alloc, LONG)?;
    is_taken_over(alloc, &network, finder, before, &first, &long)
}

#[test]
fn an_index_notes_a_row_or_refuses(rt: HostRuntime) -> Result<(), Fail> {
    let mut finder = SpotIndex::new(rt.alloc());
    assert!(rt; is_noted_whole(rt.alloc(), &mut finder, Standing::Nowhere)?);
    Ok(())
}

#[test]
fn an_index_notes_another_row_or_refuses(rt: HostRuntime) -> Result<(), Fail> {
    let mut finder = SpotIndex::new(rt.alloc());
    assert!(rt; is_noted_whole(rt.alloc(), &mut finder, Standing::Before)?);
    Ok(())
}

#[test]
fn a_list_notes_a_row_or_refuses(rt: HostRuntime) -> Result<(), Fail> {
    let mut finder = ListFinder::new(rt.alloc());
    assert!(rt; is_noted_whole(rt.alloc(), &mut finder, Standing::Nowhere)?);
    Ok(())
}

#[test]
fn a_list_notes_another_row_or_refuses(rt: HostRuntime) -> Result<(), Fail> {
    let mut finder = ListFinder::new(rt.alloc());
    assert!(rt; is_noted_whole(rt.alloc(), &mut finder, Standing::Before)?);
    Ok(())
}
