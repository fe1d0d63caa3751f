//! Edits made one after another over a view, which itself stays as it is.

ghost use Rattle.std.specs.Prelude.{◌≡◌, ◌<◌, ◌^◌, None, is_some, IfOk, IfErr, OnOk, OnErr};
ghost use Rattle.std.specs.Option.{option_copied, option_map};
ghost use Rattle.clr_rows.specs.Contents.{row_at, changes, taken_over};
ghost use Rattle.clr_rows.specs.Schemas.{Answers, row_fault, cell_fault};
ghost use Rattle.clr_change.specs.declared.edits.Edit.TheVariants.{Insert, Update, Delete};
ghost use Rattle.clr_change.specs.declared.edits.EditFault.TheVariants.{OutOfMemory, Row as Unfit};
ghost use Rattle.clr_change.specs.ChangeSets.{set_change};
ghost use Rattle.clr_change.specs.Edits.{after_edits, first_bad_edit, FaultIs, IsMade, IsFirstEditFault, fault_number};

use crate::change_sets::ChangeSet;
use crate::edits::{Edit, EditFault};
use clr_rows::{CellId, Row, RowView, Schema};
use std::alloc::Global;

/// Returns what edits change, made one after another over a view. The view itself stays as it is.
/// Fails with the number of the first edit that can't be made, counted from 1, and why; or with 0
/// and `OutOfMemory`.
/// For example, a delete of main 2 and then an insert of main 2 with another code make one change. An insert of
/// main 9 and then a delete of main 77, which isn't there, fail with 2 and `NoRow`.
pub fn stage<V: RowView>(
    alloc: Global,
    schema: &Schema,
    view: &V,
    edits: &[Edit],
) -> Result<ChangeSet, (usize, EditFault)>
    ensures passed { OnOk result (first_bad_edit schema.now (V.content view.now) 1 edits.now ≡ None) }
    ensures changes { IfOk result (λ set. set ≡ changes (V.content view.now) (after_edits (V.content view.now) edits.now)) }
    ensures refused { IfErr result (IsFirstEditFault (first_bad_edit schema.now (V.content view.now) 1 edits.now)) }
{
    let mut staged = ChangeSet::new(alloc);
    for (at, edit) in edits.iter().enumerate() {
        if let Err(fault) = make(&mut staged, schema, view, edit) {
            return Err((number(at, fault), fault));
        }
    }
    Ok(staged)
}

/// Returns the number that stands beside a fault of the edit at this position: edits count from 1,
/// and 0 stands beside `OutOfMemory`.
fn number(at: usize, fault: EditFault) -> usize
    requires { at < 2 ^ 63 }
    ensures { result ≡ fault_number at fault }
{
    match fault {
        EditFault::OutOfMemory => 0,
        _ => at + 1,
    }
}

/// Makes one more edit over the staged ones.
fn make<V: RowView>(
    staged: &mut ChangeSet,
    schema: &Schema,
    view: &V,
    edit: &Edit,
) -> Result<(), EditFault>
    ensures made { OnOk result (IsMade schema.now (V.content view.now) edit.now staged.old staged.new) }
    ensures refused { IfErr result (FaultIs schema.now (V.content view.now) edit.now staged.old) }
{
    match edit {
        Edit::Insert(cell, row) => insert(staged, schema, view, *cell, row),
        Edit::Update(cell, row) => update(staged, schema, view, *cell, row),
        Edit::Delete(cell) => delete(staged, schema, view, *cell),
    }
}

/// Stages a new row at a cell that has none.
fn insert<V: RowView>(
    staged: &mut ChangeSet,
    schema: &Schema,
    view: &V,
    cell: CellId,
    row: &Row,
) -> Result<(), EditFault>
    ensures made { OnOk result (IsMade schema.now (V.content view.now) (Insert cell row.now) staged.old staged.new) }
    ensures refused { IfErr result (FaultIs schema.now (V.content view.now) (Insert cell row.now) staged.old) }
{
    judge_row(schema, cell, row)?;
    if has_row(staged, view, cell) {
        return Err(EditFault::KeyTaken);
    }
    set(staged, view, cell, Some(row))
}

/// Stages another row at a cell that has one.
#[tactic(auto, using(crate::proofs::EditLemmas::update_missing))]
fn update<V: RowView>(
    staged: &mut ChangeSet,
    schema: &Schema,
    view: &V,
    cell: CellId,
    row: &Row,
) -> Result<(), EditFault>
    ensures made { OnOk result (IsMade schema.now (V.content view.now) (Update cell row.now) staged.old staged.new) }
    ensures refused { IfErr result (FaultIs schema.now (V.content view.now) (Update cell row.now) staged.old) }
{
    judge_row(schema, cell, row)?;
    if !has_row(staged, view, cell) {
        return Err(EditFault::NoRow);
    }
    set(staged, view, cell, Some(row))
}

/// Stages that a cell with a row has none.
#[tactic(auto, using(crate::proofs::EditLemmas::delete_missing))]
fn delete<V: RowView>(
    staged: &mut ChangeSet,
    schema: &Schema,
    view: &V,
    cell: CellId,
) -> Result<(), EditFault>
    ensures made { OnOk result (IsMade schema.now (V.content view.now) (Delete cell) staged.old staged.new) }
    ensures refused { IfErr result (FaultIs schema.now (V.content view.now) (Delete cell) staged.old) }
{
    judge_cell(schema, cell)?;
    if !has_row(staged, view, cell) {
        return Err(EditFault::NoRow);
    }
    set(staged, view, cell, None)
}

/// Tests whether a row can stand at a cell.
fn judge_row(schema: &Schema, cell: CellId, row: &Row) -> Result<(), EditFault>
    ensures { Answers result (option_map Unfit (row_fault schema.now cell row.now)) }
{
    match schema.fits(cell, row) {
        Ok(()) => Ok(()),
        Err(fault) => Err(EditFault::Row(fault)),
    }
}

/// Tests whether a cell names a row that could stand.
fn judge_cell(schema: &Schema, cell: CellId) -> Result<(), EditFault>
    ensures { Answers result (option_map Unfit (cell_fault schema.now cell)) }
{
    match schema.names_cell(cell) {
        Ok(()) => Ok(()),
        Err(fault) => Err(EditFault::Row(fault)),
    }
}

/// Returns whether a cell has a row once the staged edits are made.
fn has_row<V: RowView>(staged: &ChangeSet, view: &V, cell: CellId) -> bool
    ensures { result ≡ is_some (row_at (taken_over (V.content view.now) staged.now) cell) }
{
    match staged.get(cell) {
        Some(change) => change.after.is_some(),
        None => view.row(cell).is_some(),
    }
}

/// Sets a cell to a row, or to none.
fn set<V: RowView>(
    staged: &mut ChangeSet,
    view: &V,
    cell: CellId,
    row: Option<&Row>,
) -> Result<(), EditFault>
    ensures ok { OnOk result (staged.new ≡ set_change staged.old cell (row_at (V.content view.now) cell) (option_copied row.entry)) }
    ensures err { IfErr result (λ fault. fault ≡ OutOfMemory) }
{
    match staged.set(cell, view.row(cell), row) {
        Ok(()) => Ok(()),
        Err(_) => Err(EditFault::OutOfMemory),
    }
}
