//! Differences of a content from the one below it.

ghost use Rattle.std.specs.Prelude.{◌≡◌, ◌<◌, ◌^◌, ◌∷◌, [], false, length, Option, IfOk, OnOk, OnErr, IsOk};
ghost use Rattle.std.specs.FinMap as finite;
ghost use Rattle.std.specs.Map.Iter.{ShowsInOrder, deref_pair};
ghost use Rattle.std.specs.Option.{option_copied};
ghost use Rattle.clr_rows.specs.Contents.{Content, row_at};
ghost use Rattle.clr_rows.specs.declared.cells.CellId.{CellId as Cell};
ghost use Rattle.clr_rows.specs.declared.rows.Row.{Row as OneRow};
ghost use Rattle.clr_rows.specs.Same.{same};
ghost use Rattle.clr_deltas.specs.Differences.{no_differences, put_each, seen_over, without_neutral, swept_at, swept_cell, cells_in};
ghost use Rattle.clr_deltas.specs.Differences.{is_among, is_neutral_over, HasDifference, HasDifferences};

use clr_change::{are_same, copy_row};
use clr_rows::{CellId, Row, RowView};
use std::alloc::{AllocError, Global};
use std::collections::BTreeMap;
use std::collections::btree_map::Iter;
use std::marker::Model;

/// Differences from a content: at some cells a row, or none.
#[derive(Drop)]
pub struct Differences {
    alloc: Global,
    rows: BTreeMap<CellId, Option<Row>>,
}

impl Model for Differences {
    ghost use Rattle.clr_deltas.specs.Differences as differences;

    ghost Value = { differences.Differences };

    ghost coded = { differences.coded_differences };

    ghost view = { λ d. differences.differences_of d.rows.entries };

    ghost invariant = { λ d. differences.AreSorted d.rows.entries };
}

/// Returns whether a difference at a cell has the row of the content below.
fn is_neutral<V: RowView>(below: &V, cell: CellId, row: &Option<Row>) -> bool
    ensures { result ≡ same (row_at (V.content below.now) cell) row.now }
{
    are_same(below.row(cell), row.as_ref())
}

impl Differences {
    /// Returns differences at no cell.
    pub fn new(alloc: Global) -> Differences
        ensures { result ≡ no_differences }
    {
        Differences {
            alloc,
            rows: BTreeMap::new(alloc),
        }
    }

    /// Returns the difference at a cell, which is a row or no row; or none where there is no difference.
    pub fn get(&self, cell: CellId) -> Option<&Option<Row>>
        ensures { option_copied result ≡ finite.get self.now cell }
    {
        self.rows.get(&cell)
    }

    /// Returns how many differences there are.
    pub fn len(&self) -> usize
        ensures count { result ≡ length (finite.keys self.now) }
        ensures small { result < 2 ^ 63 }
    {
        self.rows.len()
    }

    /// Returns the differences, in the order of cells, not copied.
    pub fn iter(&self) -> Iter<'_, CellId, Option<Row>>
        ensures rest { result ≡ finite.entries self.now }
        ensures runs { ShowsInOrder (deref_pair {K = Cell} {X = Option OneRow}) }
    {
        self.rows.iter()
    }

    /// Takes away each neutral difference, one that has the row of the content below. What is seen
    /// stays. It takes no memory.
    pub fn sweep<V: RowView>(&mut self, below: &V)
        ensures { self.new ≡ without_neutral (V.content below.now) self.old }
    {
        self.rows.retain(|cell, row| !is_neutral(below, *cell, row));
    }

    /// Returns whether there is a neutral difference at a cell, one that has the row of the content
    /// below.
    fn has_neutral<V: RowView>(&self, below: &V, cell: CellId) -> bool
        ensures { result ≡ is_neutral_over (row_at (V.content below.now) cell) (finite.get self.now cell) }
    {
        match self.get(cell) {
            Some(row) => is_neutral(below, cell, row),
            None => false,
        }
    }

    /// Takes the difference at a cell away where it is neutral.
    #[tactic(auto, unfolding(crate::specs::Differences::swept_cell))]
    fn sweep_cell<V: RowView>(&mut self, below: &V, cell: CellId)
        ensures { self.new ≡ swept_cell (V.content below.now) self.old cell }
    {
        if self.has_neutral(below, cell) {
            self.take(cell);
        }
    }

    /// Takes away each neutral difference at some cells, one that has the row of the content below. What
    /// is seen stays. It takes no memory, and looks at no other difference.
    pub fn sweep_at<V: RowView>(&mut self, below: &V, cells: &[CellId])
        ensures { self.new ≡ swept_at (V.content below.now) cells.now self.old }
    {
        for cell in cells {
            self.sweep_cell(below, *cell);
        }
    }

    /// Puts a difference at a cell. If memory runs out, nothing changes. It never fails where the cell
    /// has a difference.
    pub fn put(&mut self, cell: CellId, row: Option<Row>) -> Result<(), AllocError>
        ensures ok { OnOk result (self.new ≡ finite.insert self.old cell row) }
        ensures err { OnErr result (self.new ≡ self.old) }
        ensures is_stored { HasDifference self.old cell → IsOk result }
    {
        self.rows.insert(cell, row)?;
        Ok(())
    }

    /// Sets a difference that is there to a row, or to none.
    pub(crate) fn set(&mut self, cell: CellId, row: Option<Row>)
        requires { HasDifference self.old cell }
        ensures { self.new ≡ finite.insert self.old cell row }
    {
        let put: Result<_, _> = self.put(cell, row);
        put.unwrap();
    }

    /// Sets differences that are there to rows, or to none, one after another.
    #[tactic(auto, using(crate::proofs::DifferenceLemmas::differences_stay), unfolding(crate::specs::Differences::put_each))]
    pub(crate) fn set_each(&mut self, rows: Vec<(CellId, Option<Row>)>)
        requires { HasDifferences self.old (cells_in rows.items) }
        ensures { self.new ≡ put_each self.old rows.items }
    {
        for (cell, row) in rows {
            self.set(cell, row);
        }
    }

    /// Takes the difference at a cell away, if there is one.
    pub(crate) fn take(&mut self, cell: CellId)
        ensures { self.new ≡ finite.remove self.old cell }
    {
        self.rows.remove(&cell);
    }

    /// Stores a difference at a cell that has none, with the row of the content below. What is seen
    /// stays, also where memory runs out.
    #[tactic(auto, using(crate::proofs::DifferenceLemmas::difference_stored, crate::proofs::DifferenceLemmas::put_elsewhere))]
    pub(crate) fn store_seen(&mut self, cell: CellId, row: Option<&Row>) -> Result<(), AllocError>
        ensures seen { (below : Content) → row_at below cell ≡ option_copied row.entry → seen_over below self.new ≡ seen_over below self.old }
        ensures is_stored { OnOk result (HasDifference self.new cell) }
        ensures others { (q : CellId) → is_among (cell ∷ []) q ≡ false → finite.get self.new q ≡ finite.get self.old q }
    {
        if self.get(cell).is_some() {
            return Ok(());
        }
        let row = copy_row(row)?;
        self.put(cell, row)?;
        Ok(())
    }

    /// Returns the cells of the differences, ascending.
    pub fn cells(&self) -> Result<Vec<CellId>, AllocError>
        ensures { IfOk result (λ cells. cells.items ≡ finite.keys self.now) }
    {
        let mut cells = Vec::new(self.alloc);
        for (cell, _) in self.rows.iter() {
            cells.push(*cell)?;
        }
        Ok(cells)
    }

    /// Returns the differences, in the order of cells.
    pub fn rows(&self) -> Result<Vec<(CellId, Option<Row>)>, AllocError>
        ensures { IfOk result (λ rows. rows.items ≡ finite.entries self.now) }
    {
        let mut rows = Vec::new(self.alloc);
        for (cell, row) in self.rows.iter() {
            let row = copy_row(row.as_ref())?;
            rows.push((*cell, row))?;
        }
        Ok(rows)
    }

    /// Returns differences with these rows, put one after another.
    #[tactic(auto, unfolding(crate::specs::Differences::put_each))]
    pub fn of_rows(
        alloc: Global,
        rows: Vec<(CellId, Option<Row>)>,
    ) -> Result<Differences, AllocError>
        ensures { IfOk result (λ differences. differences ≡ put_each no_differences rows.items) }
    {
        let mut differences = Differences::new(alloc);
        for (cell, row) in rows {
            differences.put(cell, row)?;
        }
        Ok(differences)
    }

    /// Returns a copy of the differences.
    pub fn copy(&self) -> Result<Differences, AllocError>
        ensures { IfOk result (λ differences. differences ≡ self.now) }
    {
        Ok(Differences {
            alloc: self.alloc,
            rows: self.rows.clone()?,
        })
    }
}
