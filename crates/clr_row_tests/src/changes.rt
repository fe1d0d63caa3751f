//! Edits of mains, and the change sets that they make.

use crate::schemas::NETWORK;
use crate::texts::text_in;
use clr_change::{ChangeSet, Edit, Edits, first_conflict, stage};
use clr_row_test_kit::{add_word, cell, row, schema};
use clr_rows::{CellId, Change, Row, Sheet};
use std::alloc::Global;

/// Mains 1 to 3 with the codes A to C.
const MAINS: &str =
    "insert 1.3 'C line 2,0 10,10;insert 1.1 'A line 0,0 10,10;insert 1.2 'B line 1,0 10,10";

/// Returns the edit of a word, its cell, and its row.
fn edit(alloc: Global, text: &str) -> Option<Edit> {
    let (word, rest) = text.split_once(' ')?;
    let (at, rest) = rest.split_once(' ').unwrap_or((rest, ""));
    match word {
        "insert" => Some(Edit::Insert(cell(at)?, row(alloc, rest)?)),
        "update" => Some(Edit::Update(cell(at)?, row(alloc, rest)?)),
        "delete" => Some(Edit::Delete(cell(at)?)),
        _ => None,
    }
}

/// Returns edits that are parted by semicolons.
fn edits(alloc: Global, text: &str) -> Option<Edits> {
    let mut list = Vec::new(alloc);
    for part in text.split(';') {
        list.push(edit(alloc, part)?).ok()?;
    }
    Some(Edits::new(list))
}

/// Returns what edits change over a sheet.
fn changes_over(alloc: Global, base: &Sheet, text: &str) -> Option<ChangeSet> {
    let edits = edits(alloc, text)?;
    stage(alloc, &schema(alloc, NETWORK)?, base, edits.as_slice()).ok()
}

/// Returns a sheet after edits.
fn sheet_after(alloc: Global, base: &Sheet, text: &str) -> Option<Sheet> {
    let set = changes_over(alloc, base, text)?;
    let mut sheet = base.copy().ok()?;
    sheet.put_all(set.rows_after().ok()?).ok()?;
    Some(sheet)
}

/// Returns a sheet of mains 1 to 3.
fn mains(alloc: Global) -> Option<Sheet> {
    sheet_after(alloc, &Sheet::new(alloc), MAINS)
}

/// Returns a key, and the texts of the rows before and after.
fn change_text(alloc: Global, cell: CellId, change: &Change) -> Option<String> {
    let (before, after) = (
        text_in(change.before.as_ref()),
        text_in(change.after.as_ref()),
    );
    format!(in alloc; "{}:{before}>{after}", cell.key).ok()
}

/// Returns the change at a position, by its cell.
fn change_at(alloc: Global, set: &ChangeSet, at: usize) -> Option<String> {
    let cell = set.cell_at(at)?;
    change_text(alloc, cell, set.get(cell)?)
}

/// Returns how many changes a set has, and the changes by position, behind which there is none.
fn by_position(alloc: Global, set: &ChangeSet) -> Option<String> {
    if set.cell_at(set.len()).is_some() {
        return None;
    }
    let mut text = format!(in alloc; "{}", set.len()).ok()?;
    for at in 0..set.len() {
        add_word(&mut text, change_at(alloc, set, at)?.as_str())?;
    }
    Some(text)
}

/// Returns how many rows a set leaves or takes away, and its changes, one after another.
fn in_order(alloc: Global, set: &ChangeSet) -> Option<String> {
    let rows = set.rows_after().ok()?;
    let mut text = format!(in alloc; "{}", rows.len()).ok()?;
    for (cell, change) in set.iter() {
        add_word(&mut text, change_text(alloc, *cell, change)?.as_str())?;
    }
    Some(text)
}

/// Returns the changes of a set, which are the same by position and one after another.
fn set_text(alloc: Global, set: &ChangeSet) -> Option<String> {
    let text = by_position(alloc, set)?;
    if text.as_str() == in_order(alloc, set)?.as_str() {
        Some(text)
    } else {
        None
    }
}

/// Returns what edits change over mains 1 to 3, or which edit can't be made, and why.
pub(crate) fn stage_text(alloc: Global, text: &str) -> Option<String> {
    let edits = edits(alloc, text)?;
    match stage(
        alloc,
        &schema(alloc, NETWORK)?,
        &mains(alloc)?,
        edits.as_slice(),
    ) {
        Ok(set) => set_text(alloc, &set),
        Err((at, fault)) => format!(in alloc; "{at} {fault:?}").ok(),
    }
}

/// Returns the differences between mains 1 to 3 and what they are after edits.
pub(crate) fn between_text(alloc: Global, text: &str) -> Option<String> {
    let base = mains(alloc)?;
    let current = sheet_after(alloc, &base, text)?;
    set_text(alloc, &ChangeSet::between(alloc, &base, &current).ok()?)
}

/// Returns how many mains there are after the differences are taken over, and how many differences are left.
pub(crate) fn over_text(alloc: Global, text: &str) -> Option<String> {
    let mut sheet = mains(alloc)?;
    let current = sheet_after(alloc, &sheet, text)?;
    let set = ChangeSet::between(alloc, &sheet, &current).ok()?;
    sheet.put_all(set.rows_after().ok()?).ok()?;
    let left = ChangeSet::between(alloc, &current, &sheet).ok()?;
    format!(in alloc; "{} {}", sheet.len(), left.len()).ok()
}

/// Returns the least conflict of edits with mains 1 to 3, and with what they are after the same edits.
pub(crate) fn conflict_text(alloc: Global, text: &str) -> Option<String> {
    let base = mains(alloc)?;
    let set = changes_over(alloc, &base, text)?;
    let with_base = first_conflict(&set, &base);
    let with_current = first_conflict(&set, &sheet_after(alloc, &base, text)?);
    format!(in alloc; "{with_base:?} {with_current:?}").ok()
}

/// Returns how many edits there are as a slice, and as a list.
pub(crate) fn edits_text(alloc: Global, text: &str) -> Option<String> {
    let edits = edits(alloc, text)?;
    let length = edits.as_slice().len();
    format!(in alloc; "{length} {}", edits.into_vec().len()).ok()
}

/// Returns a main of a code, or no row.
fn main(alloc: Global, code: &str) -> Option<Vec<Row>> {
    let mut rows = Vec::new(alloc);
    if code != "none" {
        let text = format!(in alloc; "'{code} line 0,0 10,10").ok()?;
        rows.push(row(alloc, text.as_str())?).ok()?;
    }
    Some(rows)
}

/// Sets the change at a cell from one main to another.
fn set_change(set: &mut ChangeSet, alloc: Global, text: &str) -> Option<()> {
    let (at, rest) = text.split_once(' ')?;
    let (before, after) = rest.split_once('>')?;
    let (before, after) = (main(alloc, before)?, main(alloc, after)?);
    set.set(cell(at)?, before.first(), after.first()).ok()
}

/// Returns the changes that are set one after another.
pub(crate) fn changes_text(alloc: Global, text: &str) -> Option<String> {
    let mut set = ChangeSet::new(alloc);
    for part in text.split(';') {
        set_change(&mut set, alloc, part)?;
    }
    set_text(alloc, &set)
}
