//! Sheets: finite maps from cells to rows.

ghost use Rattle.std.specs.Prelude.{◌≡◌, length, slice_get, None, IfOk, IfSome, OnOk, OnErr, IsSome, IsOk};
ghost use Rattle.std.specs.FinMap as finite;
ghost use Rattle.std.specs.Option.{option_copied};
ghost use Rattle.std.specs.BTreeMap.{keys};
ghost use Rattle.std.specs.Map.Iter.{GivesInOrder, ShowsInOrder, deref_pair};
ghost use Rattle.clr_rows.specs.Contents.{Content, row_at, cells_of, no_rows, over};
ghost use Rattle.clr_rows.specs.Ranges.{AreWithin};
ghost use Rattle.clr_rows.specs.declared.cells.CellId.{CellId as Cell};
ghost use Rattle.clr_rows.specs.declared.rows.Row.{Row as OneRow};

mod writes;

use crate::cells::CellId;
use crate::numbers::read_row;
use crate::rows::Row;
use crate::sheets::writes::write_all;
use crate::views::RowView;
use std::alloc::{AllocError, Global};
use std::collections::BTreeMap;
use std::collections::btree_map::{IntoIter, Iter};
use std::marker::Model;

/// A content: a finite map from cells to rows.
#[derive(Drop)]
pub struct Sheet {
    rows: BTreeMap<CellId, Row>,
}

impl Model for Sheet {
    ghost use Rattle.clr_rows.specs.Contents.{Content, coded_content};

    ghost Value = { Content };

    ghost coded = { coded_content };

    ghost use Rattle.clr_rows.specs.Sheets.{sheet_content, IsSoundSheet};

    ghost view = { λ a. sheet_content a.rows.entries };

    ghost invariant = { λ a. IsSoundSheet a.rows.entries };
}

fn key_at(rows: &BTreeMap<CellId, Row>, at: usize) -> Option<&CellId>
    ensures { option_copied result ≡ slice_get (keys rows.now) at }
{
    rows.keys().nth(at)
}

impl Sheet {
    /// Returns a sheet with no rows.
    pub fn new(alloc: Global) -> Sheet
        ensures { result ≡ no_rows }
    {
        Sheet {
            rows: BTreeMap::new(alloc),
        }
    }

    /// Returns the row at a cell, or none.
    /// For example, where a valve stands at node 9 and nothing at node 10, it returns the valve for node 9 and none
    /// for node 10.
    pub fn get(&self, cell: CellId) -> Option<&Row>
        ensures { option_copied result ≡ row_at self.now cell }
    {
        self.rows.get(&cell)
    }

    /// Puts a row at a cell, and returns the row that stood there, or none. If memory runs out,
    /// nothing changes. It never fails where the cell has a row.
    /// For example, `put` returns none for a valve at an empty cell, and the valve for a tee that is put there next.
    pub fn put(&mut self, cell: CellId, row: Row) -> Result<Option<Row>, AllocError>
        ensures before { IfOk result (λ before. before ≡ row_at self.old cell) }
        ensures ok { OnOk result (self.new ≡ finite.insert self.old cell row) }
        ensures err { OnErr result (self.new ≡ self.old) }
        ensures held { IsSome (row_at self.old cell) → IsOk result }
    {
        read_row(cell, &row);
        let before = self.rows.insert(cell, row)?;
        Ok(before)
    }

    /// Puts rows, or none, over this content at some cells, one after another. If memory runs out,
    /// nothing changes. The cost depends on the number of rows that are put, and not on the size of
    /// the sheet.
    /// For example, where a valve stands at node 9 and a tee at node 10, putting none at node 9 and a tap at node 10
    /// leaves one row, the tap.
    pub fn put_all(&mut self, cells: Vec<(CellId, Option<Row>)>) -> Result<(), AllocError>
        ensures ok { OnOk result (self.new ≡ over self.old cells.items) }
        ensures err { OnErr result (self.new ≡ self.old) }
    {
        write_all(self, cells)
    }

    /// Takes the row at a cell away and returns it, or none.
    /// For example, where a tee stands at node 9, `take` returns the tee for node 9, and none if it is called for
    /// node 9 again.
    pub fn take(&mut self, cell: CellId) -> Option<Row>
        ensures before { result ≡ row_at self.old cell }
        ensures removed { self.new ≡ finite.remove self.old cell }
    {
        self.rows.remove(&cell)
    }

    /// Returns how many cells have a row.
    /// For example, a new sheet has 1 row after a valve and then a tee are put at node 9, and 0 after the tee is
    /// taken away.
    pub fn len(&self) -> usize
        ensures { result ≡ length (cells_of self.now) }
    {
        self.rows.len()
    }

    /// Returns the cell of the row at a position in the order of cells, or none where there are
    /// fewer rows. The cell is found by going over the rows before it.
    /// For example, where nodes are table 0 and mains table 1, and a sheet has rows at main 2, node 10 and node 9
    /// alone, it returns node 9, node 10 and main 2 for positions 0, 1 and 2, and none for position 3.
    pub fn cell_at(&self, at: usize) -> Option<CellId>
        ensures position { result ≡ slice_get (cells_of self.now) at }
        ensures held { IfSome result (λ cell. IsSome (row_at self.now cell)) }
    {
        key_at(&self.rows, at).copied()
    }

    /// Returns the cells with their rows, in the order of cells.
    pub fn iter(&self) -> Iter<'_, CellId, Row>
        ensures rest { result ≡ finite.entries self.now }
        ensures runs { ShowsInOrder (deref_pair {K = Cell} {X = OneRow}) }
        ensures within { AreWithin self.now }
    {
        self.rows.iter()
    }

    /// Returns the cells with their rows, in the order of cells, by value.
    fn into_rows(self) -> IntoIter<CellId, Row>
        ensures rest { result ≡ finite.entries self }
        ensures runs { GivesInOrder (Cell × OneRow) }
    {
        self.rows.into_iter()
    }

    /// Returns a copy of the sheet.
    /// For example, where a valve stands at node 9 and is taken away after the copy is made, the copy still has the
    /// valve at node 9.
    pub fn copy(&self) -> Result<Sheet, AllocError>
        ensures { IfOk result (λ sheet. sheet ≡ self.now) }
    {
        Ok(Sheet {
            rows: self.rows.clone()?,
        })
    }
}

impl RowView for Sheet {
    ghost content = { λ sheet. sheet };

    fn row(&self, cell: CellId) -> Option<&Row> {
        self.get(cell)
    }
}
