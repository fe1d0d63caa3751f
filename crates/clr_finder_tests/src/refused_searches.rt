//! What finders find while memory is wanting.

ghost use Rattle.std.specs.Prelude.{◌≡◌};
ghost use Rattle.std.specs.FinMap as finite;

use crate::network::{CROSSING, MAIN, NODE, Network, RowAt, are_cells, row_of};
use crate::sharing::{CROSSINGS, FIRST};
use clr_call_test_kit::Hoard;
use clr_grid::{ListFinder, RowFinder, SpotIndex};
use clr_rows::CellId;
use std::alloc::Global;
use std::test::Fail;

/// Budgets end here, in bytes.
const MOST: usize = 32_768;

/// The cells that a finder is asked for: of all rows that share, or of those alone that may serve.
#[derive(Clone, Copy)]
enum Asked {
    All,
    Servers,
}

/// Returns what is found for a row within this many bytes, or none for want of memory.
fn find_within<F: RowFinder>(
    network: &Network,
    finder: &F,
    asked: Asked,
    row: &RowAt,
    hoard: &mut Hoard,
    budget: usize,
) -> Result<Option<Vec<CellId>>, Fail> {
    network.schema.fits(row.cell, &row.row)?;
    if usize::from(CROSSING) >= network.book.len() {
        return Err("no such rule".into());
    }
    hoard.leave(budget)?;
    let found = match asked {
        Asked::All => finder.sharing(&network.book, CROSSING, row.as_held()),
        Asked::Servers => finder.sharing_servers(&network.book, CROSSING, row.as_held()),
    };
    hoard.give_back();
    Ok(found.ok())
}

/// Returns whether just these cells are found once there is memory, and at first it is wanting.
fn finds_or_refuses<F: RowFinder>(
    alloc: Global,
    finder: &mut F,
    asked: Asked,
    cells: &[(u16, i64)],
) -> Result<bool, Fail>
    requires { F.pending finder.old ≡ finite.empty }
{
    let network = Network::new(alloc)?;
    network.add_all(alloc, finder, &CROSSINGS)?;
    let row = row_of(alloc, FIRST)?;
    let mut hoard = Hoard::take(alloc)?;
    for budget in (0..MOST).step_by(16) {
        if let Some(found) = find_within(&network, finder, asked, &row, &mut hoard, budget)? {
            return Ok(budget > 0 && are_cells(found.as_slice(), cells));
        }
    }
    Ok(false)
}

const SHARING: [(u16, i64); 3] = [(NODE, 9), (MAIN, 1), (MAIN, 2)];

const SERVING: [(u16, i64); 1] = [(NODE, 9)];

#[test]
fn an_index_finds_all_or_refuses(rt: HostRuntime) -> Result<(), Fail> {
    let mut finder = SpotIndex::new(rt.alloc());
    assert!(rt; finds_or_refuses(rt.alloc(), &mut finder, Asked::All, &SHARING)?);
    Ok(())
}

#[test]
fn an_index_finds_servers_or_refuses(rt: HostRuntime) -> Result<(), Fail> {
    let mut finder = SpotIndex::new(rt.alloc());
    assert!(rt; finds_or_refuses(rt.alloc(), &mut finder, Asked::Servers, &SERVING)?);
    Ok(())
}

#[test]
fn a_list_finds_all_or_refuses(rt: HostRuntime) -> Result<(), Fail> {
    let mut finder = ListFinder::new(rt.alloc());
    assert!(rt; finds_or_refuses(rt.alloc(), &mut finder, Asked::All, &SHARING)?);
    Ok(())
}

#[test]
fn a_list_finds_servers_or_refuses(rt: HostRuntime) -> Result<(), Fail> {
    let mut finder = ListFinder::new(rt.alloc());
    assert!(rt; finds_or_refuses(rt.alloc(), &mut finder, Asked::Servers, &SERVING)?);
    Ok(())
}
