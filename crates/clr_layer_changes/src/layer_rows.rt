//! The rows that a layer gives a table.

ghost use Rattle.std.specs.Prelude.{◌≡◌, ℕ, Ok, Err, IfOk, if◌then◌else◌};
ghost use Rattle.clr_layer_text.specs.Layers.{layer_in_text};
ghost use Rattle.clr_layer_changes.specs.Keys.{ArePassed, is_free};
ghost use Rattle.clr_layer_changes.specs.LayerRows.{all_rows, layer_rows, of_text, own_rows, rows_at_keys, seen_rows, with_given, with_own};

use crate::faults::LayersFault;
use crate::keys::{cell_of, least_free};
use crate::limits::FIRST_RECORD;
use crate::options::LayerOptions;
use clr_layer_text::{LayerFault, LayerRow, read_layer};
use clr_rows::{CellId, Schema, Sheet};
use std::alloc::{AllocError, Global};

/// Puts a row with a key of its own among others. Returns false where one of them has the key.
fn put_own(table: u16, rows: &mut Sheet, row: &LayerRow) -> Result<bool, AllocError>
    ensures { IfOk result (λ put. (number : ℕ) → with_own table number rows.old row.now ≡ (if put then Ok rows.new else Err number)) }
{
    let Some(key) = row.key else {
        return Ok(true);
    };
    let cell = CellId { table, key };
    if rows.get(cell).is_some() {
        return Ok(false);
    }
    rows.put(cell, row.row.copy()?)?;
    Ok(true)
}

/// Returns the rows with keys of their own, or the number of the first whose key a row before it has.
fn own_rows(
    alloc: Global,
    table: u16,
    layer: &[LayerRow],
) -> Result<Result<Sheet, usize>, AllocError>
    ensures { IfOk result (λ found. found ≡ own_rows table layer.now) }
{
    let mut rows = Sheet::new(alloc);
    for (i, row) in layer.iter().enumerate() {
        if !put_own(table, &mut rows, row)? {
            return Ok(Err(FIRST_RECORD + i));
        }
    }
    Ok(Ok(rows))
}

/// Puts a row without a key among others, at the least key that is free. None is from the first key to the next. Returns false where
/// none is left.
fn put_given(
    live: &Sheet,
    table: u16,
    next: &mut u64,
    rows: &mut Sheet,
    row: &LayerRow,
) -> Result<bool, AllocError>
    ensures { IfOk result (λ put. (first : ℕ) → ArePassed (is_free live.now rows.old table) first next.old
        → ((number : ℕ) → with_given live.now table first number rows.old row.now ≡ (if put then Ok rows.new else Err number))
        × ArePassed (is_free live.now rows.new table) first next.new) }
{
    if row.key.is_some() {
        return Ok(true);
    }
    let Some(key) = least_free(live, rows, table, *next) else {
        return Ok(false);
    };
    rows.put(cell_of(table, key), row.row.copy()?)?;
    *next = key + 1;
    Ok(true)
}

/// Returns these rows with those that have no keys of their own, each at the least key that is free; or the number of the first for which
/// none is left.
fn all_rows(
    live: &Sheet,
    table: u16,
    first: u64,
    own: Sheet,
    layer: &[LayerRow],
) -> Result<Result<Sheet, usize>, AllocError>
    ensures { IfOk result (λ found. found ≡ all_rows live.now table first own layer.now) }
{
    let mut rows = own;
    let mut next = first;
    for (i, row) in layer.iter().enumerate() {
        if !put_given(live, table, &mut next, &mut rows, row)? {
            return Ok(Err(FIRST_RECORD + i));
        }
    }
    Ok(Ok(rows))
}

/// Returns the rows of a layer's text, in the order of its records; or the first fault beside the number of its record.
fn text_rows(
    alloc: Global,
    schema: &Schema,
    table: u16,
    rounded: bool,
    text: &[u8],
) -> Result<Result<Vec<LayerRow>, (usize, LayersFault)>, AllocError>
    ensures { IfOk result (λ found. seen_rows found ≡ of_text (layer_in_text schema.now table rounded text.now)) }
{
    match read_layer(alloc, schema, table, rounded, text) {
        Ok(rows) => Ok(Ok(rows)),
        Err((_, LayerFault::OutOfMemory)) => Err(AllocError),
        Err((number, fault)) => Ok(Err((number, LayersFault::Unread(fault)))),
    }
}

/// Returns all rows, those with keys of their own being put first, or the first fault of a key beside the number of its record.
fn rows_at_keys(
    alloc: Global,
    live: &Sheet,
    options: LayerOptions,
    table: u16,
    layer: &[LayerRow],
) -> Result<Result<Sheet, (usize, LayersFault)>, AllocError>
    ensures { IfOk result (λ found. found ≡ rows_at_keys live.now options table layer.now) }
{
    let own = match own_rows(alloc, table, layer)? {
        Ok(own) => own,
        Err(number) => return Ok(Err((number, LayersFault::KeyTwice))),
    };
    match all_rows(live, table, options.first_key, own, layer)? {
        Ok(rows) => Ok(Ok(rows)),
        Err(number) => Ok(Err((number, LayersFault::NoKey))),
    }
}

/// Returns the rows of the text of a layer of a table, each at its cell; or its first fault beside the number of its record: the first of the
/// text, the first row with the key of a row before it, or the first row for which no key is left.
#[tactic(auto, unfolding(crate::specs::LayerRows::layer_rows))]
pub(crate) fn layer_rows(
    alloc: Global,
    schema: &Schema,
    live: &Sheet,
    options: LayerOptions,
    table: u16,
    text: &[u8],
) -> Result<Result<Sheet, (usize, LayersFault)>, AllocError>
    ensures { IfOk result (λ found. found ≡ layer_rows schema.now live.now options table text.now) }
{
    match text_rows(alloc, schema, table, options.rounded, text)? {
        Ok(rows) => rows_at_keys(alloc, live, options, table, rows.as_slice()),
        Err(fault) => Ok(Err(fault)),
    }
}
