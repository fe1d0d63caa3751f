//! The spots of rows by cell, with pending changes.

ghost use Rattle.std.specs.Prelude.{◌≡◌, ◌⊎◌, Some, None, true, false, IsSome, IfOk, OnOk, OnErr, MatchOption, is_some, if◌then◌else◌};
ghost use Rattle.std.specs.BTreeMap.{get, is_at};
ghost use Rattle.std.specs.FinMap as finite;
ghost use Rattle.std.specs.List.Sorted.{IsStrictlySortedBy};
ghost use Rattle.std.specs.Option.{option_copied, option_flatten};
ghost use Rattle.clr_rows.specs.Cells.{cell_cmp};
ghost use Rattle.clr_rows.specs.declared.cells.CellId.{CellId as Cell};
ghost use Rattle.clr_finders.specs.NextCells.{IsNextOf};
ghost use Rattle.clr_finders.specs.CellLists.{is_one_of};
ghost use Rattle.clr_finders.specs.RowMaps.{no_filed_rows, settled_of, with_settled_row, with_settled, without_pending};
ghost use Rattle.clr_finders.specs.Sharing.{found_cells, is_met_at, next_at};

use crate::bounds::bound_behind;
use crate::meetings::is_met;
use crate::row_spots::{RowSpots, RuleSpots};
use clr_rows::CellId;
use std::alloc::{AllocError, Global};
use std::collections::BTreeMap;
use std::marker::Model;
use std::mem;
use std::ops::Bound;

/// The spots of rows by cell, settled ones and pending changes, all under the rules of one book.
/// A cell among the settled ones that has no row is room for one that is pending.
#[derive(Drop)]
pub struct RowMap {
    settled: BTreeMap<CellId, Option<RowSpots>>,
    pending: BTreeMap<CellId, Option<RowSpots>>,
}

impl Model for RowMap {
    ghost use Rattle.clr_finders.specs.RowMaps.{FiledRows, coded_rows, settled_of, pending_of, HasRoom};

    ghost Value = { FiledRows };

    ghost coded = { coded_rows };

    ghost view = { λ a. record { settled = settled_of a.settled.entries; pending = pending_of a.pending.entries } };

    ghost invariant = { λ a. HasRoom a.settled a.pending };
}

/// Returns the row that is there, or none.
fn row_in(filed: Option<&Option<RowSpots>>) -> Option<&RowSpots>
    ensures { option_copied result ≡ option_flatten (option_copied filed.entry) }
{
    match filed {
        Some(Some(row)) => Some(row),
        _ => None,
    }
}

/// Puts a row where there is room, and answers the row that stood there.
fn replace_at(
    settled: &mut BTreeMap<CellId, Option<RowSpots>>,
    cell: CellId,
    row: RowSpots,
) -> Option<RowSpots>
    requires { IsSome (get cell_cmp settled.old cell) }
    ensures before { get cell_cmp settled.old cell ≡ Some result }
    ensures after { (q : Cell) → get cell_cmp settled.new q ≡ (if is_at (cell_cmp cell) q then Some (Some row) else get cell_cmp settled.old q) }
{
    match settled.get_mut(&cell) {
        Some(slot) => mem::replace(slot, Some(row)),
        None => None,
    }
}

/// Takes the row and the room of a cell away, and answers the row, or none.
fn take_at(settled: &mut BTreeMap<CellId, Option<RowSpots>>, cell: CellId) -> Option<RowSpots>
    ensures before { result ≡ option_flatten (get cell_cmp settled.old cell) }
    ensures after { (q : Cell) → get cell_cmp settled.new q ≡ (if is_at (cell_cmp cell) q then None else get cell_cmp settled.old q) }
{
    settled.remove(&cell).flatten()
}

/// Makes room for a row at a cell.
fn make_room(
    settled: &mut BTreeMap<CellId, Option<RowSpots>>,
    cell: CellId,
) -> Result<(), AllocError>
    ensures rows { settled_of settled.new.entries ≡ settled_of settled.old.entries }
    ensures kept { (q : Cell) → is_some (get cell_cmp settled.old q) ≡ true → is_some (get cell_cmp settled.new q) ≡ true }
    ensures only { (q : Cell) → get cell_cmp settled.new q ≡ Some None → (get cell_cmp settled.old q ≡ Some None) ⊎ (q ≡ cell) }
    ensures err { OnErr result ((q : Cell) → get cell_cmp settled.new q ≡ get cell_cmp settled.old q) }
    ensures room { OnOk result (is_some (get cell_cmp settled.new cell) ≡ true) }
{
    if !settled.contains_key(&cell) {
        settled.insert(cell, None)?;
    }
    Ok(())
}

/// Takes the room of a cell away, where it has no row.
fn drop_room(settled: &mut BTreeMap<CellId, Option<RowSpots>>, cell: CellId)
    ensures rows { settled_of settled.new.entries ≡ settled_of settled.old.entries }
    ensures others { (q : Cell) → is_at (cell_cmp cell) q ≡ false → get cell_cmp settled.new q ≡ get cell_cmp settled.old q }
    ensures gone { get cell_cmp settled.new cell ≡ Some None → ⊥ }
{
    if let Some(None) = settled.get(&cell) {
        settled.remove(&cell);
    }
}

impl RowMap {
    /// Returns a map without rows. It takes no memory.
    pub fn new(alloc: Global) -> RowMap
        ensures { result ≡ no_filed_rows }
    {
        RowMap {
            settled: BTreeMap::new(alloc),
            pending: BTreeMap::new(alloc),
        }
    }

    /// Returns the spots of the settled row at a cell, or none where no row stands.
    pub fn settled_row(&self, cell: CellId) -> Option<&RowSpots>
        ensures { option_copied result ≡ finite.get self.now.settled cell }
    {
        row_in(self.settled.get(&cell))
    }

    /// Returns the spots of the row that is to stand at a cell by its pending change; none where the
    /// cell has no pending change, or one that takes its row away.
    pub fn pending_row(&self, cell: CellId) -> Option<&RowSpots>
        ensures { option_copied result ≡ option_flatten (finite.get self.now.pending cell) }
    {
        row_in(self.pending.get(&cell))
    }

    /// Returns a cell with a pending change, or none where there is no such cell.
    pub fn first_pending(&self) -> Option<CellId>
        ensures { MatchOption result (self.now.pending ≡ finite.empty) (λ cell. is_some (finite.get self.now.pending cell) ≡ true) }
    {
        match self.pending.first_key_value() {
            Some((cell, _)) => Some(*cell),
            None => None,
        }
    }

    /// Adds a pending change of a cell that has none yet: the spots of the row that is to stand
    /// there, or none. If memory runs out, nothing changes.
    pub fn note(&mut self, cell: CellId, row: Option<RowSpots>) -> Result<(), AllocError>
        requires { finite.get self.old.pending cell ≡ None }
        ensures ok { OnOk result (self.new ≡ record self.old { pending = finite.insert self.old.pending cell row }) }
        ensures err { OnErr result (self.new ≡ self.old) }
    {
        make_room(&mut self.settled, cell)?;
        match self.pending.insert(cell, row) {
            Ok(_) => Ok(()),
            Err(_) => {
                drop_room(&mut self.settled, cell);
                Err(AllocError)
            }
        }
    }

    /// Puts the spots of a row at a cell, as those of its settled row. Its pending change stays, if it
    /// has one. If memory runs out, nothing changes.
    pub fn put(&mut self, cell: CellId, row: RowSpots) -> Result<(), AllocError>
        ensures ok { OnOk result (self.new ≡ with_settled_row self.old cell row) }
        ensures err { OnErr result (self.new ≡ self.old) }
    {
        self.settled.insert(cell, Some(row))?;
        Ok(())
    }

    /// Takes over the pending change of a cell that has one. Returns the spots of the row that stood
    /// there, or none. It takes no memory.
    pub fn settle_at(&mut self, cell: CellId) -> Option<RowSpots>
        requires { is_some (finite.get self.old.pending cell) ≡ true }
        ensures before { result ≡ finite.get self.old.settled cell }
        ensures after { self.new ≡ with_settled self.old cell }
    {
        match self.pending.remove(&cell) {
            Some(Some(row)) => replace_at(&mut self.settled, cell, row),
            Some(None) => take_at(&mut self.settled, cell),
            None => None,
        }
    }

    /// Drops the pending change of a cell, if it has one. Returns the spots of the row that was to
    /// stand there, or none. It takes no memory.
    pub fn forget_at(&mut self, cell: CellId) -> Option<RowSpots>
        ensures before { result ≡ option_flatten (finite.get self.old.pending cell) }
        ensures after { self.new ≡ without_pending self.old cell }
    {
        let row = self.pending.remove(&cell);
        drop_room(&mut self.settled, cell);
        row.flatten()
    }

    /// Takes all pending changes over. It takes no memory.
    #[tactic(auto, using(crate::proofs::MapLemmas::fewer_left))]
    pub fn settle(&mut self)
        ensures settled { (q : Cell) → finite.get self.new.settled q ≡ next_at self.old.settled self.old.pending q }
        ensures pending { self.new.pending ≡ finite.empty }
    {
        while let Some(cell) = self.first_pending() {
            self.settle_at(cell);
        }
    }

    /// Drops all pending changes. It takes no memory.
    #[tactic(auto, using(crate::proofs::MapLemmas::fewer_left))]
    pub fn forget(&mut self)
        ensures { self.new ≡ record self.old { pending = finite.empty } }
    {
        while let Some(cell) = self.first_pending() {
            self.forget_at(cell);
        }
    }

    /// Returns a cell behind a given one, or any where none is given, which is past no cell with a
    /// settled row that stands there. None says that no such cell stands there. It takes no memory.
    pub fn next_cell(&self, after: Option<CellId>) -> Option<CellId>
        ensures { IsNextOf (λ q. is_some (finite.get self.now.settled q) ≡ true) after result }
    {
        match self
            .settled
            .range((bound_behind(after), Bound::Unbounded))
            .next()
        {
            Some((cell, _)) => Some(*cell),
            None => None,
        }
    }

    /// Returns the cells whose settled rows share with a row of these spots under the rule of a
    /// number, or those alone that are of the side that serves, ascending, each once.
    pub fn find_all(
        &self,
        alloc: Global,
        servers: bool,
        rule: u16,
        spots: &RuleSpots,
    ) -> Result<Vec<CellId>, AllocError>
        ensures { IfOk result (λ list. list.items ≡ found_cells servers self.now.settled rule spots.now) }
    {
        let mut list = Vec::new(alloc);
        for cell in self.settled.keys() {
            if self.is_found(servers, rule, spots, *cell) {
                list.push(*cell)?;
            }
        }
        Ok(list)
    }

    /// Returns what `find_all` returns, and looks only at some cells. These ascend, each once, and all
    /// that are found are among them.
    pub fn find_among(
        &self,
        alloc: Global,
        servers: bool,
        rule: u16,
        spots: &RuleSpots,
        cells: &[CellId],
    ) -> Result<Vec<CellId>, AllocError>
        requires rising { IsStrictlySortedBy cell_cmp cells.now }
        requires all { (q : Cell) → is_met_at servers spots.now rule (finite.get self.now.settled q) ≡ true → is_one_of cells.now q ≡ true }
        ensures { IfOk result (λ list. list.items ≡ found_cells servers self.now.settled rule spots.now) }
    {
        let mut list = Vec::new(alloc);
        for cell in cells {
            if self.is_found(servers, rule, spots, *cell) {
                list.push(*cell)?;
            }
        }
        Ok(list)
    }

    /// Returns whether the row of a cell is found under a rule.
    fn is_found(&self, servers: bool, rule: u16, spots: &RuleSpots, cell: CellId) -> bool
        ensures { result ≡ is_met_at servers spots.now rule (finite.get self.now.settled cell) }
    {
        match self.settled_row(cell) {
            Some(row) => is_met(servers, spots, row.get(rule)),
            None => false,
        }
    }
}
