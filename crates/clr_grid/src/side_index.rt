//! The cells of the rows of one side of a rule, filed by the numbers of their spots.

ghost use Rattle.std.specs.Prelude.{◌≡◌, ◌⊎◌, ◌||◌, ◌&&◌, ℕ, nat_eq, not, true, false, if◌then◌else◌};
ghost use Rattle.std.specs.Prelude.{IfOk, OnOk, OnErr, Some, None, unwrap_or};
ghost use Rattle.std.specs.FinSet as set;
ghost use Rattle.std.specs.HashMap.{get};
ghost use Rattle.std.specs.List.{list_any};
ghost use Rattle.std.specs.Option.{option_copied};
ghost use Rattle.clr_rows.specs.declared.cells.CellId.{CellId as Cell};
ghost use Rattle.clr_finders.specs.NextCells.{IsNextOf};
ghost use Rattle.clr_grid.specs.CellSets.{is_one};
ghost use Rattle.clr_grid.specs.Gains.{GainsCells, IsFoundFor};
ghost use Rattle.clr_grid.specs.Filing.{HoldCells, Key, has_cell, has_key, has_key_of, is_filed, is_looked_at};
ghost use Rattle.clr_grid.specs.Filing.{keeps_number, keeps_wide, stays, without_cell};
ghost use Rattle.clr_grid.specs.SpotNumbers.{has_number, spot_number_of};

use crate::cell_lists::CellList;
use crate::cell_sets::CellSet;
use crate::spot_cells::SpotCells;
use crate::spot_numbers::{have_number, number_of};
use clr_finders::{RuleSpots, lesser_cell};
use clr_rows::CellId;
use clr_spots::Spot;
use std::alloc::{AllocError, Global};
use std::collections::HashMap;
use std::collections::hash_map::Entry;

/// The cells of some rows under a rule: of the wide ones, and by the numbers of their spots.
#[derive(Drop)]
pub(crate) struct SideIndex {
    by_spot: HashMap<u64, SpotCells>,
    wide: CellSet,
}

/// Files a cell at a number.
fn file_at(
    by_spot: &mut HashMap<u64, SpotCells>,
    alloc: Global,
    number: u64,
    cell: CellId,
) -> Result<(), AllocError>
    ensures ok { OnOk result ((n : ℕ) → get nat_eq by_spot.new n
        ≡ (if nat_eq number n then Some (set.insert (unwrap_or (get nat_eq by_spot.old number) set.empty) cell)
        else get nat_eq by_spot.old n)) }
    ensures err { OnErr result ((n : ℕ) → get nat_eq by_spot.new n ≡ get nat_eq by_spot.old n) }
{
    match by_spot.entry(number)? {
        Entry::Occupied(place) => {
            place.into_mut().add(cell)?;
            Ok(())
        }
        Entry::Vacant(place) => {
            place.insert(SpotCells::one(alloc, cell));
            Ok(())
        }
    }
}

/// Files a cell at the numbers of some spots.
fn file_at_each(
    by_spot: &mut HashMap<u64, SpotCells>,
    alloc: Global,
    spots: &[Spot],
    cell: CellId,
) -> Result<(), AllocError>
    ensures kept { (n : ℕ) (q : Cell) → has_cell (get nat_eq by_spot.old n) q ≡ true → has_cell (get nat_eq by_spot.new n) q ≡ true }
    ensures only { (n : ℕ) (q : Cell) → has_cell (get nat_eq by_spot.new n) q ≡ true
        → (has_cell (get nat_eq by_spot.old n) q ≡ true) ⊎ ((q ≡ cell) × (list_any (has_number n) spots.now ≡ true)) }
    ensures lean { HoldCells by_spot.old → HoldCells by_spot.new }
    ensures filed { OnOk result ((n : ℕ) → list_any (has_number n) spots.now ≡ true → has_cell (get nat_eq by_spot.new n) cell ≡ true) }
{
    for spot in spots {
        file_at(by_spot, alloc, number_of(spot), cell)?;
    }
    Ok(())
}

/// Takes a cell away from a number, and answers whether it has had cells and has none left.
fn remove_at(by_spot: &mut HashMap<u64, SpotCells>, number: u64, cell: CellId) -> bool
    ensures cells { (n : ℕ) → get nat_eq by_spot.new n
        ≡ (if nat_eq number n then without_cell (get nat_eq by_spot.old number) cell else get nat_eq by_spot.old n) }
    ensures none { result ≡ true → get nat_eq by_spot.new number ≡ Some set.empty }
    ensures some { result ≡ false → get nat_eq by_spot.new number ≡ Some set.empty → ⊥ }
{
    match by_spot.get_mut(&number) {
        Some(cells) => {
            cells.remove(cell);
            cells.is_empty()
        }
        None => false,
    }
}

/// Takes a cell away from a number, and the number where no cell is left.
fn take_at(by_spot: &mut HashMap<u64, SpotCells>, number: u64, cell: CellId)
    ensures kept { (n : ℕ) (q : Cell) → (is_one cell q && nat_eq number n) ≡ false → has_cell (get nat_eq by_spot.old n) q ≡ true
        → has_cell (get nat_eq by_spot.new n) q ≡ true }
    ensures fewer { (n : ℕ) (q : Cell) → has_cell (get nat_eq by_spot.new n) q ≡ true → has_cell (get nat_eq by_spot.old n) q ≡ true }
    ensures gone { has_cell (get nat_eq by_spot.new number) cell ≡ false }
    ensures lean { HoldCells by_spot.old → HoldCells by_spot.new }
{
    if remove_at(by_spot, number, cell) {
        by_spot.remove(&number);
    }
}

/// Returns whether a row that stays is wide.
fn keeps_wide(kept: Option<&RuleSpots>) -> bool
    ensures { result ≡ keeps_wide (option_copied kept.entry) }
{
    match kept {
        Some(kept) => kept.spots.wide,
        None => false,
    }
}

/// Returns whether a row that stays has a spot of that number.
fn keeps_number(kept: Option<&RuleSpots>, number: u64) -> bool
    ensures { result ≡ keeps_number (option_copied kept.entry) number }
{
    match kept {
        Some(kept) => have_number(kept.spots.list.as_slice(), number),
        None => false,
    }
}

/// Takes a cell away from the numbers of some spots, but for those that a row has that stays.
fn take_at_each(
    by_spot: &mut HashMap<u64, SpotCells>,
    spots: &[Spot],
    kept: Option<&RuleSpots>,
    cell: CellId,
)
    ensures kept { (n : ℕ) (q : Cell) → (is_one cell q && not (keeps_number (option_copied kept.entry) n)) ≡ false
        → has_cell (get nat_eq by_spot.old n) q ≡ true → has_cell (get nat_eq by_spot.new n) q ≡ true }
    ensures fewer { (n : ℕ) (q : Cell) → has_cell (get nat_eq by_spot.new n) q ≡ true → has_cell (get nat_eq by_spot.old n) q ≡ true }
    ensures gone { (n : ℕ) → list_any (has_number n) spots.now ≡ true → has_cell (get nat_eq by_spot.new n) cell ≡ true
        → keeps_number (option_copied kept.entry) n ≡ true }
    ensures lean { HoldCells by_spot.old → HoldCells by_spot.new }
{
    for spot in spots {
        let number = number_of(spot);
        if !keeps_number(kept, number) {
            take_at(by_spot, number, cell);
        }
    }
}

impl SideIndex {
    /// Returns an index without cells.
    pub(crate) fn new(alloc: Global) -> SideIndex
        ensures none { (k : Key) (q : Cell) → is_filed result k q ≡ false }
        ensures lean { HoldCells result.by_spot }
    {
        SideIndex {
            by_spot: HashMap::new(alloc),
            wide: CellSet::new(alloc),
        }
    }

    /// Files the cell of a row wherever it is to be.
    pub(crate) fn file(
        &mut self,
        alloc: Global,
        cell: CellId,
        spots: &RuleSpots,
    ) -> Result<(), AllocError>
        ensures kept { (k : Key) (q : Cell) → is_filed self.old k q ≡ true → is_filed self.new k q ≡ true }
        ensures only { (k : Key) (q : Cell) → is_filed self.new k q ≡ true
            → (is_filed self.old k q ≡ true) ⊎ ((q ≡ cell) × (has_key spots.now k ≡ true)) }
        ensures lean { HoldCells self.old.by_spot → HoldCells self.new.by_spot }
        ensures filed { OnOk result ((k : Key) → has_key spots.now k ≡ true → is_filed self.new k cell ≡ true) }
    {
        self.wide.add_if(spots.spots.wide, cell)?;
        file_at_each(&mut self.by_spot, alloc, spots.spots.list.as_slice(), cell)?;
        Ok(())
    }

    /// Takes the cell of a row away, but for what a row keeps that stays.
    pub(crate) fn unfile(&mut self, cell: CellId, spots: &RuleSpots, kept: Option<&RuleSpots>)
        ensures kept { (k : Key) (q : Cell) → stays cell (option_copied kept.entry) k q ≡ true → is_filed self.old k q ≡ true
            → is_filed self.new k q ≡ true }
        ensures fewer { (k : Key) (q : Cell) → is_filed self.new k q ≡ true → is_filed self.old k q ≡ true }
        ensures gone { (k : Key) → has_key spots.now k ≡ true → is_filed self.new k cell ≡ true → has_key_of (option_copied kept.entry) k ≡ true }
        ensures lean { HoldCells self.old.by_spot → HoldCells self.new.by_spot }
    {
        self.wide.remove_if(!keeps_wide(kept), cell);
        take_at_each(&mut self.by_spot, spots.spots.list.as_slice(), kept, cell);
    }

    /// Adds the cells at a number.
    fn add_cells_at(&self, number: u64, cells: &mut CellList) -> Result<(), AllocError>
        ensures ok { OnOk result ((q : Cell) → set.contains cells.new q ≡ (set.contains cells.old q || has_cell (get nat_eq self.now.by_spot number) q)) }
        ensures err { OnErr result (GainsCells (λ q. has_cell (get nat_eq self.now.by_spot number) q ≡ true) cells.old cells.new) }
    {
        match self.by_spot.get(&number) {
            Some(more) => more.add_to(cells),
            None => Ok(()),
        }
    }

    /// Adds the cells at the numbers of some spots.
    fn add_cells_at_each(&self, spots: &[Spot], cells: &mut CellList) -> Result<(), AllocError>
        ensures ok { OnOk result ((q : Cell) → set.contains cells.new q
            ≡ (set.contains cells.old q || list_any (λ x. has_cell (get nat_eq self.now.by_spot (spot_number_of x)) q) spots.now)) }
        ensures err { OnErr result (GainsCells (λ q. list_any (λ x. has_cell (get nat_eq self.now.by_spot (spot_number_of x)) q) spots.now ≡ true)
            cells.old cells.new) }
    {
        if self.by_spot.is_empty() {
            return Ok(());
        }
        for spot in spots {
            self.add_cells_at(number_of(spot), cells)?;
        }
        Ok(())
    }

    /// Adds the cells that are looked at for a row that isn't wide. If memory runs out, the list keeps
    /// its own cells, and besides them it has only some of these.
    pub(crate) fn add_near(&self, spots: &RuleSpots, cells: &mut CellList) -> Result<(), AllocError>
        ensures kept { OnOk result ((q : Cell) → set.contains cells.old q ≡ true → set.contains cells.new q ≡ true) }
        ensures near { OnOk result ((k : Key) (q : Cell) → is_looked_at spots.now k ≡ true → is_filed self.now k q ≡ true
            → set.contains cells.new q ≡ true) }
        ensures err { OnErr result (GainsCells (IsFoundFor self.now spots.now) cells.old cells.new) }
    {
        self.wide.add_to(spots.has_role, cells)?;
        self.add_cells_at_each(spots.spots.list.as_slice(), cells)?;
        Ok(())
    }

    /// Returns the first cell at a number behind a given one, if there is one.
    fn next_at(&self, number: u64, after: Option<CellId>) -> Option<CellId>
        ensures { IsNextOf (λ q. has_cell (get nat_eq self.now.by_spot number) q ≡ true) after result }
    {
        match self.by_spot.get(&number) {
            Some(cells) => cells.next(after),
            None => None,
        }
    }

    /// Returns the first cell at the numbers of some spots behind a given one, if there is one.
    fn next_at_each(&self, spots: &[Spot], after: Option<CellId>) -> Option<CellId>
        ensures { IsNextOf (λ q. list_any (λ x. has_cell (get nat_eq self.now.by_spot (spot_number_of x)) q) spots.now ≡ true) after result }
    {
        let mut next = None;
        for spot in spots {
            next = lesser_cell(next, self.next_at(number_of(spot), after));
        }
        next
    }

    /// Returns the first cell behind a given one that is looked at for a row that isn't wide, if any.
    pub(crate) fn next_near(&self, spots: &RuleSpots, after: Option<CellId>) -> Option<CellId>
        ensures { IsNextOf (IsFoundFor self.now spots.now) after result }
    {
        let among_wide = self.wide.next_if(spots.has_role, after);
        let at_spots = self.next_at_each(spots.spots.list.as_slice(), after);
        lesser_cell(among_wide, at_spots)
    }
}
