//! Marks as they are stored.

ghost use Rattle.std.specs.Prelude.{◌≡◌, ◌<◌, ◌++◌, [], ◌∷◌, suc, map, take, drop, filter, remove, length, count_by, position, OnOk, OnErr};
ghost use Rattle.std.specs.List.{list_any};
ghost use Rattle.std.specs.Option.{option_copied};
ghost use Rattle.clr_rows.specs.Contents.{Content, row_at};
ghost use Rattle.clr_deltas.specs.Deltas.{whole_mark, is_stored_child, is_stored_saved, is_stored_saved_as, is_stored_mark_of};
ghost use Rattle.clr_deltas.specs.Deltas.{stored_without_mark_of, swept_mark, swept_mark_at, MarkStores, EachMarkStores, StayOwnBeside};
ghost use Rattle.clr_deltas.specs.declared.stored_marks.StoredMark.TheVariants.{Child};

use crate::differences::Differences;
use clr_rows::{CellId, Row, RowView, Words};
use std::alloc::AllocError;

/// A mark as it is stored: a savepoint by its differences from the base, or the mark that the
/// making of a child left.
#[derive(Drop)]
pub enum StoredMark {
    Saved(Words, Differences),
    Child(Words),
}

/// Stores a difference at a cell in a savepoint that has none there, with the row of the base.
fn store_seen(mark: &mut StoredMark, cell: CellId, row: Option<&Row>) -> Result<(), AllocError>
    ensures seen { (base : Content) → row_at base cell ≡ option_copied row.entry → whole_mark base mark.new ≡ whole_mark base mark.old }
    ensures is_stored { OnOk result (MarkStores cell mark.new) }
    ensures others { StayOwnBeside (cell ∷ []) (mark.old ∷ []) (mark.new ∷ []) }
{
    match mark {
        StoredMark::Saved(_, differences) => differences.store_seen(cell, row),
        StoredMark::Child(_) => Ok(()),
    }
}

/// Stores a difference at a cell in each savepoint that has none there, with the row of the base. No
/// savepoint's content changes, also where memory runs out.
pub(crate) fn store_in_each(
    marks: &mut Vec<StoredMark>,
    cell: CellId,
    row: Option<&Row>,
) -> Result<(), AllocError>
    ensures seen { (b : Content) → row_at b cell ≡ option_copied row.entry → map (whole_mark b) marks.new.items ≡ map (whole_mark b) marks.old.items }
    ensures is_stored { OnOk result (EachMarkStores marks.new.items cell) }
    ensures others { StayOwnBeside (cell ∷ []) marks.old.items marks.new.items }
{
    for i in 0..marks.len() {
        store_seen(&mut marks[i], cell, row)?;
    }
    Ok(())
}

/// Takes away each neutral difference of a savepoint.
fn sweep<V: RowView>(mark: &mut StoredMark, base: &V)
    ensures { mark.new ≡ swept_mark (V.content base.now) mark.old }
{
    match mark {
        StoredMark::Saved(_, differences) => differences.sweep(base),
        StoredMark::Child(_) => {}
    }
}

/// Takes away each neutral difference of each savepoint, one that has the row of the base. No
/// savepoint's content over that base changes. It takes no memory.
pub fn sweep_each<V: RowView>(marks: &mut Vec<StoredMark>, base: &V)
    ensures { marks.new.items ≡ map (swept_mark (V.content base.now)) marks.old.items }
{
    for i in 0..marks.len() {
        sweep(&mut marks[i], base);
    }
}

/// Takes away each neutral difference of a savepoint at some cells.
fn sweep_at<V: RowView>(mark: &mut StoredMark, base: &V, cells: &[CellId])
    ensures { mark.new ≡ swept_mark_at (V.content base.now) cells.now mark.old }
{
    match mark {
        StoredMark::Saved(_, differences) => differences.sweep_at(base, cells),
        StoredMark::Child(_) => {}
    }
}

/// Takes away each neutral difference of each savepoint at some cells, one that has the row of the base.
/// No savepoint's content over that base changes. It takes no memory, and looks at no other difference.
pub fn sweep_each_at<V: RowView>(marks: &mut Vec<StoredMark>, base: &V, cells: &[CellId])
    ensures { marks.new.items ≡ map (swept_mark_at (V.content base.now) cells.now) marks.old.items }
{
    for i in 0..marks.len() {
        sweep_at(&mut marks[i], base, cells);
    }
}

fn is_child(mark: &StoredMark) -> bool
    ensures { result ≡ is_stored_child mark.now }
{
    match mark {
        StoredMark::Saved(_, _) => false,
        StoredMark::Child(_) => true,
    }
}

fn is_saved(mark: &StoredMark) -> bool
    ensures { result ≡ is_stored_saved mark.now }
{
    !is_child(mark)
}

fn is_saved_as(mark: &StoredMark, name: &str) -> bool
    ensures { result ≡ is_stored_saved_as name.now mark.now }
{
    match mark {
        StoredMark::Saved(other, _) => name == other.as_str(),
        StoredMark::Child(_) => false,
    }
}

fn is_mark_of(mark: &StoredMark, child: &str) -> bool
    ensures { result ≡ is_stored_mark_of child.now mark.now }
{
    match mark {
        StoredMark::Saved(_, _) => false,
        StoredMark::Child(name) => child == name.as_str(),
    }
}

/// Returns how many savepoints there are.
pub fn count_saved(marks: &[StoredMark]) -> usize
    ensures { result ≡ count_by is_stored_saved marks.now }
{
    let mut count = 0;
    for mark in marks {
        if is_saved(mark) {
            count += 1;
        }
    }
    count
}

/// Returns how many marks a child has.
pub fn count_marks_of(marks: &[StoredMark], child: &str) -> usize
    ensures { result ≡ count_by (is_stored_mark_of child.now) marks.now }
{
    let mut count = 0;
    for mark in marks {
        if is_mark_of(mark, child) {
            count += 1;
        }
    }
    count
}

/// Returns the position of the savepoint of a name, or none.
pub fn find_saved(marks: &[StoredMark], name: &str) -> Option<usize>
    ensures { result ≡ position (is_stored_saved_as name.now) marks.now }
{
    marks.iter().position(|mark| is_saved_as(mark, name))
}

fn has_child(marks: &[StoredMark]) -> bool
    ensures { result ≡ list_any is_stored_child marks.now }
{
    marks.iter().any(|mark| is_child(mark))
}

/// Returns whether the mark of a child stands after a position.
pub fn has_child_after(marks: &[StoredMark], at: usize) -> bool
    requires { at < length marks.now }
    ensures { result ≡ list_any is_stored_child (drop (suc at) marks.now) }
{
    has_child(&marks[at + 1..])
}

/// Puts a mark at the end. If memory runs out, nothing changes.
pub(crate) fn push_mark(marks: &mut Vec<StoredMark>, mark: StoredMark) -> Result<(), AllocError>
    ensures ok { OnOk result (marks.new.items ≡ marks.old.items ++ mark ∷ []) }
    ensures err { OnErr result (marks.new.items ≡ marks.old.items) }
{
    marks.push(mark)?;
    Ok(())
}

/// Moves the mark of a child to the end. If memory runs out, nothing changes.
pub(crate) fn move_last(marks: &mut Vec<StoredMark>, child: Words) -> Result<(), AllocError>
    ensures ok { OnOk result (marks.new.items ≡ stored_without_mark_of child marks.old.items ++ Child child ∷ []) }
    ensures err { OnErr result (marks.new.items ≡ marks.old.items) }
{
    marks.reserve(1)?;
    marks.retain(|mark| !is_mark_of(mark, child.as_str()));
    marks.push_reserved(StoredMark::Child(child));
    Ok(())
}

/// Takes the mark of a child away.
pub(crate) fn drop_mark_of(marks: &mut Vec<StoredMark>, child: &str)
    ensures { marks.new.items ≡ stored_without_mark_of child.now marks.old.items }
{
    marks.retain(|mark| !is_mark_of(mark, child));
}

/// Takes the savepoints away.
pub(crate) fn drop_saved(marks: &mut Vec<StoredMark>)
    ensures { marks.new.items ≡ filter is_stored_child marks.old.items }
{
    marks.retain(|mark| is_child(mark));
}

/// Takes the mark at a position away.
pub(crate) fn drop_mark(marks: &mut Vec<StoredMark>, at: usize)
    requires { at < length marks.old.items }
    ensures { marks.new.items ≡ remove marks.old.items at }
{
    let _gone = marks.remove(at);
}

/// Takes the marks after a position away.
pub(crate) fn cut_after(marks: &mut Vec<StoredMark>, at: usize)
    requires { at < length marks.old.items }
    ensures { marks.new.items ≡ take (suc at) marks.old.items }
{
    marks.truncate(at + 1);
}
