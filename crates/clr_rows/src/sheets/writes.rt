//! Writing many rows at once, all of them or none, at a cost that depends on how many are written.

ghost use Rattle.std.specs.Prelude.{◌≡◌, true, is_some, IfOk, OnOk, OnErr};
ghost use Rattle.std.specs.FinMap as finite;
ghost use Rattle.clr_rows.specs.Contents.{row_at, no_rows, over, set_cell};
ghost use Rattle.clr_rows.specs.Sheets.{named_cells, cells_without_rows, with_none, with_placeholders, with_rows};
ghost use Rattle.clr_rows.specs.declared.cells.CellId.{CellId as Cell};

use crate::cells::CellId;
use crate::places::Shape;
use crate::rows::{Row, Values};
use crate::sheets::Sheet;
use std::alloc::{AllocError, Global};

/// Puts rows, or none, over the content of a sheet at some cells, one after another. If memory runs
/// out, nothing changes.
pub(super) fn write_all(
    sheet: &mut Sheet,
    cells: Vec<(CellId, Option<Row>)>,
) -> Result<(), AllocError>
    ensures ok { OnOk result (sheet.new ≡ over sheet.old cells.items) }
    ensures err { OnErr result (sheet.new ≡ sheet.old) }
{
    let (last, cleared) = prepare(sheet, cells)?;
    take_all(sheet, cleared.as_slice());
    move_rows(sheet, last);
    Ok(())
}

/// Does all of a write that takes memory. Returns the last row that is given for each cell, and the
/// cells for which none is given last, and puts a placeholder at each cell that has no row. If
/// memory runs out, nothing changes.
fn prepare(
    sheet: &mut Sheet,
    cells: Vec<(CellId, Option<Row>)>,
) -> Result<(Sheet, Vec<CellId>), AllocError>
    ensures last { IfOk result (λ made. made.0 ≡ over no_rows cells.items) }
    ensures cleared { IfOk result (λ made. made.1.items ≡ cells_without_rows made.0 (named_cells cells.items)) }
    ensures room { OnOk result (sheet.new ≡ over sheet.old (with_placeholders (cells_without_rows sheet.old (named_cells cells.items)))) }
    ensures err { OnErr result (sheet.new ≡ sheet.old) }
{
    let alloc: Global = *cells.allocator();
    let named = list_cells(alloc, cells.as_slice())?;
    let last = last_rows(alloc, cells)?;
    let cleared = list_missing(alloc, &last, named.as_slice())?;
    let fresh = list_missing(alloc, sheet, named.as_slice())?;
    make_room(alloc, sheet, fresh.as_slice())?;
    Ok((last, cleared))
}

/// Returns the cells of a list.
fn list_cells(alloc: Global, cells: &[(CellId, Option<Row>)]) -> Result<Vec<CellId>, AllocError>
    ensures { IfOk result (λ list. list.items ≡ named_cells cells.now) }
{
    let mut list = Vec::new(alloc);
    for (cell, _) in cells {
        list.push(*cell)?;
    }
    Ok(list)
}

/// Returns the rows that stand once these are put over no rows, one after another.
#[tactic(auto, unfolding(crate::specs::Contents::over))]
fn last_rows(alloc: Global, cells: Vec<(CellId, Option<Row>)>) -> Result<Sheet, AllocError>
    ensures { IfOk result (λ sheet. sheet ≡ over no_rows cells.items) }
{
    let mut sheet = Sheet::new(alloc);
    for (cell, row) in cells {
        set(&mut sheet, cell, row)?;
    }
    Ok(sheet)
}

/// Sets a cell to a row, or to none. If memory runs out, nothing changes.
fn set(sheet: &mut Sheet, cell: CellId, row: Option<Row>) -> Result<(), AllocError>
    ensures ok { OnOk result (sheet.new ≡ set_cell sheet.old cell row) }
    ensures err { OnErr result (sheet.new ≡ sheet.old) }
{
    match row {
        Some(row) => {
            sheet.put(cell, row)?;
        }
        None => {
            sheet.take(cell);
        }
    }
    Ok(())
}

/// Returns those of some cells that have no row.
fn list_missing(alloc: Global, sheet: &Sheet, cells: &[CellId]) -> Result<Vec<CellId>, AllocError>
    ensures { IfOk result (λ list. list.items ≡ cells_without_rows sheet.now cells.now) }
{
    let mut list = Vec::new(alloc);
    for cell in cells {
        if sheet.get(*cell).is_none() {
            list.push(*cell)?;
        }
    }
    Ok(list)
}

/// Puts a placeholder at each of these cells. If memory runs out, it takes all rows at these cells
/// away.
fn make_room(alloc: Global, sheet: &mut Sheet, cells: &[CellId]) -> Result<(), AllocError>
    ensures ok { OnOk result (sheet.new ≡ over sheet.old (with_placeholders cells.now)) }
    ensures err { OnErr result (sheet.new ≡ over sheet.old (with_none cells.now)) }
{
    for cell in cells {
        let row = Row {
            values: Values::new(Vec::new(alloc)),
            shape: Shape::Bare,
        };
        if let Err(error) = sheet.put(*cell, row) {
            take_all(sheet, cells);
            return Err(error);
        }
    }
    Ok(())
}

/// Takes the rows at these cells away.
fn take_all(sheet: &mut Sheet, cells: &[CellId])
    ensures { sheet.new ≡ over sheet.old (with_none cells.now) }
{
    for cell in cells {
        sheet.take(*cell);
    }
}

/// Puts a row at a cell that has one. No memory is needed.
fn replace(sheet: &mut Sheet, cell: CellId, row: Row)
    requires { is_some (row_at sheet.old cell) ≡ true }
    ensures { sheet.new ≡ finite.insert sheet.old cell row }
{
    let _before = sheet.put(cell, row);
}

/// Moves rows to their cells, each of which has a row.
fn move_rows(sheet: &mut Sheet, rows: Sheet)
    requires { (cell : Cell) → is_some (row_at rows cell) ≡ true → is_some (row_at sheet.old cell) ≡ true }
    ensures { sheet.new ≡ over sheet.old (with_rows (finite.entries rows)) }
{
    for (cell, row) in rows.into_rows() {
        replace(sheet, cell, row);
    }
}
