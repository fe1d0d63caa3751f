//! The cells of rows, filed by rule.

ghost use Rattle.std.specs.Prelude.{◌≡◌, ◌⊎◌, ◌<◌, ◌≤◌, ℕ, Bool, true, false, Some, None, IfOk, OnOk, slice_get, length};
ghost use Rattle.std.specs.FinSet as set;
ghost use Rattle.std.specs.List.Sorted.{IsStrictlySortedBy};
ghost use Rattle.std.specs.Option.{option_copied};
ghost use Rattle.clr_rows.specs.Cells.{cell_cmp};
ghost use Rattle.clr_rows.specs.declared.cells.CellId.{CellId as Cell};
ghost use Rattle.clr_finders.specs.NextCells.{IsNextOf};
ghost use Rattle.clr_grid.specs.NextCells.{IsServerFoundFor};
ghost use Rattle.clr_grid.specs.Filing.{AllHoldCells, AreGone, AreNear, GainNone, GainOnly, HoldCells, IsFiledRow};
ghost use Rattle.clr_grid.specs.Filing.{IsFiledIfAny, Key, StayFiled, StayFiledBut, has_key, has_key_of};
ghost use Rattle.clr_grid.specs.Filing.{is_filed, is_filed_under, is_looked_at, of_side, side_index_of, spots_at, stays};

use crate::cell_lists::CellList;
use crate::side_index::SideIndex;
use clr_finders::{RowSpots, RuleSpots};
use clr_rows::CellId;
use std::alloc::{AllocError, Global};

/// The cells of rows under a rule, those of the side that serves apart.
#[derive(Drop)]
pub(crate) struct RuleIndex {
    servers: SideIndex,
    others: SideIndex,
}

/// Returns a row that stays, if it is of that side.
fn of_side(serves: bool, kept: Option<&RuleSpots>) -> Option<&RuleSpots>
    ensures { option_copied result ≡ of_side serves (option_copied kept.entry) }
{
    match kept {
        Some(kept) if kept.may_serve == serves => Some(kept),
        _ => None,
    }
}

impl RuleIndex {
    /// Returns an index without cells.
    fn new(alloc: Global) -> RuleIndex
        ensures none { (b : Bool) (k : Key) (q : Cell) → is_filed (side_index_of result b) k q ≡ false }
        ensures lean { (b : Bool) → HoldCells (side_index_of result b).by_spot }
    {
        RuleIndex {
            servers: SideIndex::new(alloc),
            others: SideIndex::new(alloc),
        }
    }

    /// Files the cell of a row wherever it is to be.
    #[tactic(auto, using(crate::proofs::IndexLemmas::sides_lean))]
    fn file(&mut self, alloc: Global, cell: CellId, spots: &RuleSpots) -> Result<(), AllocError>
        ensures kept { (b : Bool) (k : Key) (q : Cell) → is_filed (side_index_of self.old b) k q ≡ true → is_filed (side_index_of self.new b) k q ≡ true }
        ensures only { (b : Bool) (k : Key) (q : Cell) → is_filed (side_index_of self.new b) k q ≡ true
            → (is_filed (side_index_of self.old b) k q ≡ true) ⊎ ((q ≡ cell) × (has_key_of (of_side b (Some spots.now)) k ≡ true)) }
        ensures lean { (b : Bool) → HoldCells (side_index_of self.old b).by_spot → HoldCells (side_index_of self.new b).by_spot }
        ensures filed { OnOk result ((k : Key) → has_key spots.now k ≡ true → is_filed (side_index_of self.new spots.now.may_serve) k cell ≡ true) }
    {
        if spots.may_serve {
            self.servers.file(alloc, cell, spots)
        } else {
            self.others.file(alloc, cell, spots)
        }
    }

    /// Takes the cell of a row away, but for what a row keeps that stays.
    #[tactic(auto, using(crate::proofs::IndexLemmas::sides_lean))]
    fn unfile(&mut self, cell: CellId, spots: &RuleSpots, kept: Option<&RuleSpots>)
        ensures kept { (b : Bool) (k : Key) (q : Cell) → stays cell (of_side b (option_copied kept.entry)) k q ≡ true
            → is_filed (side_index_of self.old b) k q ≡ true → is_filed (side_index_of self.new b) k q ≡ true }
        ensures fewer { (b : Bool) (k : Key) (q : Cell) → is_filed (side_index_of self.new b) k q ≡ true → is_filed (side_index_of self.old b) k q ≡ true }
        ensures gone { (b : Bool) (k : Key) → has_key_of (of_side b (Some spots.now)) k ≡ true → is_filed (side_index_of self.new b) k cell ≡ true
            → has_key_of (of_side b (option_copied kept.entry)) k ≡ true }
        ensures lean { (b : Bool) → HoldCells (side_index_of self.old b).by_spot → HoldCells (side_index_of self.new b).by_spot }
    {
        let kept = of_side(spots.may_serve, kept);
        if spots.may_serve {
            self.servers.unfile(cell, spots, kept);
        } else {
            self.others.unfile(cell, spots, kept);
        }
    }

    /// Adds the cells that are looked at for a row, servers alone or all.
    fn add_near(
        &self,
        servers: bool,
        spots: &RuleSpots,
        cells: &mut CellList,
    ) -> Result<(), AllocError>
        ensures near { OnOk result ((b : Bool) (k : Key) (q : Cell) → (servers ≡ true → b ≡ true) → is_looked_at spots.now k ≡ true
            → is_filed (side_index_of self.now b) k q ≡ true → set.contains cells.new q ≡ true) }
    {
        self.servers.add_near(spots, cells)?;
        if !servers {
            self.others.add_near(spots, cells)?;
        }
        Ok(())
    }
}

/// Returns the spots of a row that stays under the rule of a number.
fn spots_at(kept: Option<&RowSpots>, rule: usize) -> Option<&RuleSpots>
    ensures { option_copied result ≡ spots_at (option_copied kept.entry) rule }
{
    match kept {
        Some(kept) => kept.as_slice().get(rule),
        None => None,
    }
}

/// Makes an index for each rule below a number.
fn make_rules(rules: &mut Vec<RuleIndex>, alloc: Global, count: usize) -> Result<(), AllocError>
    ensures kept { StayFiled rules.old.items rules.new.items }
    ensures only { GainNone rules.old.items rules.new.items }
    ensures lean { AllHoldCells rules.old.items → AllHoldCells rules.new.items }
    ensures enough { OnOk result (count ≤ length rules.new.items) }
{
    while rules.len() < count {
        rules.push(RuleIndex::new(alloc))?;
    }
    Ok(())
}

/// Files a cell under the rule of a number.
#[tactic(auto, unfolding(crate::specs::Filing::AllHoldCells, crate::specs::Filing::HoldCells))]
fn file_at(
    rules: &mut Vec<RuleIndex>,
    alloc: Global,
    rule: usize,
    cell: CellId,
    spots: &RuleSpots,
) -> Result<(), AllocError>
    requires { rule < length rules.old.items }
    ensures kept { StayFiled rules.old.items rules.new.items }
    ensures only { (n : ℕ) (b : Bool) (k : Key) (q : Cell) → is_filed_under rules.new.items n b k q ≡ true
        → (is_filed_under rules.old.items n b k q ≡ true) ⊎ ((q ≡ cell) × ((n ≡ rule) × (has_key_of (of_side b (Some spots.now)) k ≡ true))) }
    ensures lean { AllHoldCells rules.old.items → AllHoldCells rules.new.items }
    ensures length { length rules.new.items ≡ length rules.old.items }
    ensures filed { OnOk result ((k : Key) → has_key spots.now k ≡ true → is_filed_under rules.new.items rule spots.now.may_serve k cell ≡ true) }
{
    let index = &mut rules[rule];
    index.file(alloc, cell, spots)
}

/// Files a cell under each rule by the spots of its row.
fn file_at_each(
    rules: &mut Vec<RuleIndex>,
    alloc: Global,
    cell: CellId,
    row: &RowSpots,
) -> Result<(), AllocError>
    ensures kept { StayFiled rules.old.items rules.new.items }
    ensures only { GainOnly cell (Some row.now) rules.old.items rules.new.items }
    ensures lean { AllHoldCells rules.old.items → AllHoldCells rules.new.items }
    ensures filed { OnOk result (IsFiledRow rules.new.items cell row.now) }
{
    let spots = row.as_slice();
    make_rules(rules, alloc, spots.len())?;
    for rule in 0..spots.len() {
        file_at(rules, alloc, rule, cell, &spots[rule])?;
    }
    Ok(())
}

/// Files the cell of a row, if there is one.
pub(crate) fn file_row(
    rules: &mut Vec<RuleIndex>,
    alloc: Global,
    cell: CellId,
    row: Option<&RowSpots>,
) -> Result<(), AllocError>
    ensures kept { StayFiled rules.old.items rules.new.items }
    ensures only { GainOnly cell (option_copied row.entry) rules.old.items rules.new.items }
    ensures lean { AllHoldCells rules.old.items → AllHoldCells rules.new.items }
    ensures filed { OnOk result (IsFiledIfAny rules.new.items cell (option_copied row.entry)) }
{
    match row {
        Some(row) => file_at_each(rules, alloc, cell, row),
        None => Ok(()),
    }
}

/// Takes a cell away under the rule of a number, but for what a row keeps that stays.
fn unfile_at(
    rules: &mut Vec<RuleIndex>,
    rule: usize,
    cell: CellId,
    spots: &RuleSpots,
    kept: Option<&RuleSpots>,
)
    ensures kept { (n : ℕ) (b : Bool) (k : Key) (q : Cell) → (n ≡ rule → stays cell (of_side b (option_copied kept.entry)) k q ≡ true)
        → is_filed_under rules.old.items n b k q ≡ true → is_filed_under rules.new.items n b k q ≡ true }
    ensures fewer { GainNone rules.old.items rules.new.items }
    ensures gone { (b : Bool) (k : Key) → has_key_of (of_side b (Some spots.now)) k ≡ true → is_filed_under rules.new.items rule b k cell ≡ true
        → has_key_of (of_side b (option_copied kept.entry)) k ≡ true }
    ensures lean { AllHoldCells rules.old.items → AllHoldCells rules.new.items }
{
    if rule < rules.len() {
        let index = &mut rules[rule];
        index.unfile(cell, spots, kept);
    }
}

/// Takes a cell away at the spots of a row, but for what a row keeps that stays.
fn unfile_at_each(rules: &mut Vec<RuleIndex>, cell: CellId, row: &RowSpots, kept: Option<&RowSpots>)
    ensures kept { StayFiledBut cell (option_copied kept.entry) rules.old.items rules.new.items }
    ensures fewer { GainNone rules.old.items rules.new.items }
    ensures gone { AreGone cell (Some row.now) (option_copied kept.entry) rules.new.items }
    ensures lean { AllHoldCells rules.old.items → AllHoldCells rules.new.items }
{
    let spots = row.as_slice();
    for rule in 0..spots.len() {
        unfile_at(rules, rule, cell, &spots[rule], spots_at(kept, rule));
    }
}

/// Takes the cell of a row away, if there is one, but for what a row keeps that stays.
pub(crate) fn unfile_row(
    rules: &mut Vec<RuleIndex>,
    cell: CellId,
    row: Option<RowSpots>,
    kept: Option<&RowSpots>,
)
    ensures kept { StayFiledBut cell (option_copied kept.entry) rules.old.items rules.new.items }
    ensures fewer { GainNone rules.old.items rules.new.items }
    ensures gone { AreGone cell row (option_copied kept.entry) rules.new.items }
    ensures lean { AllHoldCells rules.old.items → AllHoldCells rules.new.items }
{
    if let Some(row) = row {
        unfile_at_each(rules, cell, &row, kept);
    }
}

/// Adds the cells that are looked at for a row under a rule, servers alone or all.
fn add_cells_near(
    rules: &[RuleIndex],
    servers: bool,
    rule: u16,
    spots: &RuleSpots,
    cells: &mut CellList,
) -> Result<(), AllocError>
    ensures { OnOk result ((b : Bool) (k : Key) (q : Cell) → (servers ≡ true → b ≡ true) → is_looked_at spots.now k ≡ true
        → is_filed_under rules.now rule b k q ≡ true → set.contains cells.new q ≡ true) }
{
    match rules.get(rule as usize) {
        Some(index) => index.add_near(servers, spots, cells),
        None => Ok(()),
    }
}

/// Returns the first of the cells of rows that may serve behind a given one, among those that are looked at for a row under a rule, if there is one.
pub(crate) fn next_server_near(
    rules: &[RuleIndex],
    rule: u16,
    spots: &RuleSpots,
    after: Option<CellId>,
) -> Option<CellId>
    ensures { IsNextOf (IsServerFoundFor rules.now rule spots.now) after result }
{
    match rules.get(rule as usize) {
        Some(index) => index.servers.next_near(spots, after),
        None => None,
    }
}

/// Returns the cells that are looked at for a row under a rule, servers alone or all, ascending.
pub(crate) fn cells_near(
    rules: &[RuleIndex],
    alloc: Global,
    servers: bool,
    rule: u16,
    spots: &RuleSpots,
) -> Result<Vec<CellId>, AllocError>
    ensures near { IfOk result (λ cells. AreNear rules.now servers rule spots.now cells.items) }
    ensures rising { IfOk result (λ cells. IsStrictlySortedBy cell_cmp cells.items) }
{
    let mut cells = CellList::new(alloc);
    add_cells_near(rules, servers, rule, spots, &mut cells)?;
    Ok(cells.into_vec())
}
