//! What both finders find of the rows of LIVE, by each of them and under each rule.

ghost use Rattle.std.specs.Prelude.{◌≡◌};
ghost use Rattle.std.specs.FinMap as finite;

use crate::networks::{
    CROSSING, MAINS, ONE_HYDRANT, PATHS, TWO_MORE_MAINS, TWO_MORE_NODES, TWO_NODES, network,
};
use crate::streets::{SCENES, STREETS};
use clr_engine::Office;
use clr_grid::{ListFinder, RowFinder, SpotIndex};
use clr_lines::add_cell;
use clr_rows::{CellId, Held, Row};
use std::alloc::Global;
use std::test::Fail;

/// Gives a finder without pending changes a row of an office.
fn add<F: RowFinder>(office: &Office, finder: &mut F, cell: CellId, row: &Row) -> Result<(), Fail>
    requires { F.pending finder.old ≡ finite.empty }
    ensures { F.pending finder.new ≡ finite.empty }
{
    office.schema().fits(cell, row)?;
    finder.note(office.book(), cell, Some(row))?;
    finder.settle();
    Ok(())
}

/// Gives a finder without pending changes the rows of LIVE.
fn add_live<F: RowFinder>(office: &Office, finder: &mut F) -> Result<(), Fail>
    requires { F.pending finder.old ≡ finite.empty }
    ensures { F.pending finder.new ≡ finite.empty }
{
    for (cell, row) in office.live().iter() {
        add(office, finder, *cell, row)?;
    }
    Ok(())
}

/// Returns the cells of the rows that share with a row under a rule, all or servers alone.
fn cells_found<F: RowFinder>(
    office: &Office,
    finder: &F,
    rule: u16,
    held: Held,
    servers: bool,
) -> Result<Vec<CellId>, Fail> {
    office.schema().fits(held.cell, held.row)?;
    let book = office.book();
    if usize::from(rule) >= book.len() {
        return Err("no such rule".into());
    }
    if servers {
        Ok(finder.sharing_servers(book, rule, held)?)
    } else {
        Ok(finder.sharing(book, rule, held)?)
    }
}

/// Adds cells, each after a space.
fn add_cells(line: &mut Vec<u8>, office: &Office, cells: &[CellId]) -> Result<(), Fail> {
    for cell in cells {
        line.extend_from_slice(b" ")?;
        add_cell(line, office.schema(), *cell)?;
    }
    Ok(())
}

/// Adds the line of a row under a rule: its cell, the cells that share, and those of servers alone.
fn add_line<F: RowFinder>(
    line: &mut Vec<u8>,
    office: &Office,
    finder: &F,
    rule: u16,
    held: Held,
) -> Result<(), Fail> {
    let all = cells_found(office, finder, rule, held, false)?;
    let servers = cells_found(office, finder, rule, held, true)?;
    add_cell(line, office.schema(), held.cell)?;
    line.extend_from_slice(b":")?;
    add_cells(line, office, all.as_slice())?;
    line.extend_from_slice(b" served by")?;
    add_cells(line, office, servers.as_slice())?;
    line.extend_from_slice(b"\n")?;
    Ok(())
}

/// Returns a line for each row of LIVE under a rule.
fn lines_under<F: RowFinder>(
    alloc: Global,
    office: &Office,
    finder: &F,
    rule: u16,
) -> Result<Vec<u8>, Fail> {
    let mut lines = Vec::new(alloc);
    for (cell, row) in office.live().iter() {
        add_line(&mut lines, office, finder, rule, Held { cell: *cell, row })?;
    }
    Ok(lines)
}

/// Returns a line for each row of LIVE under a rule, found by the office's own finder, which looks at the spots of the row alone.
fn indexed_lines_under(alloc: Global, office: &Office, rule: u16) -> Result<Vec<u8>, Fail> {
    let finder = office.finder(0).ok_or("no finder")?;
    lines_under(alloc, office, finder, rule)
}

/// Returns whether a finder finds for each row of LIVE under each rule what the office's own finder does.
fn finds_as_office<F: RowFinder>(alloc: Global, office: &Office, finder: &F) -> Result<bool, Fail> {
    for rule in 0..office.book().len() {
        let rule = u16::try_from(rule)?;
        let lines = lines_under(alloc, office, finder, rule)?;
        if lines.as_slice() != indexed_lines_under(alloc, office, rule)?.as_slice() {
            return Ok(false);
        }
    }
    Ok(true)
}

/// Returns whether a finder without rows, once it has those of LIVE, finds what the office's own finder does,
/// also while it is noted of one row after another that it goes.
fn finds_live<F: RowFinder>(alloc: Global, office: &Office, finder: &mut F) -> Result<bool, Fail>
    requires { F.pending finder.old ≡ finite.empty }
{
    add_live(office, finder)?;
    for (cell, _) in office.live().iter() {
        finder.note(office.book(), *cell, None)?;
        let as_office = finds_as_office(alloc, office, finder)?;
        finder.forget();
        if !as_office {
            return Ok(false);
        }
    }
    finds_as_office(alloc, office, finder)
}

/// Returns whether both finders find the same for each row of LIVE under each rule, in the office of tables
/// with rules, and rows of LIVE.
fn find_the_same(alloc: Global, rules: &str, live: &str) -> Result<bool, Fail> {
    let office = network(alloc, rules, live, &[])?;
    Ok(
        finds_live(alloc, &office, &mut ListFinder::new(alloc))?
            && finds_live(alloc, &office, &mut SpotIndex::new(alloc))?,
    )
}

/// Mains that are long, three of them wide, with nodes on some of them.
const LONG_MAINS: &str = r#"{"t":"node","k":1,"v":["tee"],"s":[250000,0]},
{"t":"node","k":2,"v":["tee"],"s":[9000000,9000000]},
{"t":"node","k":3,"v":["valve"],"s":[250000,0]},
{"t":"main","k":1,"v":["A"],"s":[0,0,500000,0]},
{"t":"main","k":2,"v":["B"],"s":[250000,-1000,250000,1000]},
{"t":"main","k":3,"v":["C"],"s":[0,0,700000,700000]},
{"t":"main","k":4,"v":["D"],"s":[0,0,6400000,0]},
{"t":"main","k":5,"v":["E"],"s":[-1000000000,-1000000000,1000000000,1000000000]},
{"t":"main","k":6,"v":["F"],"s":[9000000,9000000,9000000,9000001]},
{"t":"main","k":7,"v":["G"],"s":[-1000000000,1000000000,1000000000,-1000000000]}"#;

/// What shares by squares with each of them, where mains and ducts cross at tees.
const SHARING: &str = r#"node/1: node/1 main/1 main/2 main/3 main/4 main/5 main/7 served by node/1
node/2: node/2 main/4 main/5 main/6 main/7 served by node/2
node/3: served by
main/1: node/1 main/1 main/2 main/3 main/4 main/5 main/7 served by node/1
main/2: node/1 main/1 main/2 main/3 main/4 main/5 main/7 served by node/1
main/3: node/1 main/1 main/2 main/3 main/4 main/5 main/7 served by node/1
main/4: node/1 node/2 main/1 main/2 main/3 main/4 main/5 main/6 main/7 served by node/1 node/2
main/5: node/1 node/2 main/1 main/2 main/3 main/4 main/5 main/6 main/7 served by node/1 node/2
main/6: node/2 main/4 main/5 main/6 main/7 served by node/2
main/7: node/1 node/2 main/1 main/2 main/3 main/4 main/5 main/6 main/7 served by node/1 node/2
"#;

#[test]
fn wide_rows(rt: HostRuntime) -> Result<(), Fail> {
    let office = network(rt.alloc(), STREETS, LONG_MAINS, &[])?;
    let lines = indexed_lines_under(rt.alloc(), &office, 3)?;
    assert!(rt; lines.as_slice() == SHARING.as_bytes());
    assert!(rt; find_the_same(rt.alloc(), STREETS, LONG_MAINS)?);
    Ok(())
}

/// Tables with rules, and rows of LIVE beside the crossing.
const CROSSINGS: [(&str, &str); 6] = [
    (MAINS, ""),
    (MAINS, TWO_MORE_NODES),
    (MAINS, TWO_MORE_MAINS),
    (MAINS, ONE_HYDRANT),
    (PATHS, TWO_NODES),
    (PATHS, ONE_HYDRANT),
];

#[test]
fn both_finders_find_the_same_at_a_crossing(rt: HostRuntime) -> Result<(), Fail> {
    let alloc = rt.alloc();
    for (rules, more) in CROSSINGS {
        let live = format!(in alloc; "{CROSSING}{more}")?;
        assert!(rt; find_the_same(alloc, rules, live.as_str())?, "{more}");
    }
    Ok(())
}

#[test]
fn both_finders_find_the_same(rt: HostRuntime) -> Result<(), Fail> {
    for (live, _, _) in &SCENES {
        assert!(rt; find_the_same(rt.alloc(), STREETS, live)?, "{live}");
    }
    Ok(())
}
