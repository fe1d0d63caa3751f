//! How many faults there are, in all and of each kind and column.

ghost use Rattle.std.specs.Prelude.{◌≡◌, ◌++◌, IfOk, OnOk, count_by, flat_map};
ghost use Rattle.std.specs.List.{list_any};
ghost use Rattle.clr_layer_reports.specs.Reports.{all_line, column_text, counts_text, is_alike, is_same_column, kind_line, kind_of, kinds_of, row_kind};
ghost use Rattle.clr_layer_reports.specs.Reports.{shown_words, text_kind, with_kind};

use crate::sentences::fault_name;
use clr_layer_changes::LayersFault;
use clr_layer_faults::{FoundFault, column_name};
use clr_layer_text::LayerFault;
use clr_lines::add_count;
use clr_rows::{RowFault, TableDef};
use std::alloc::{AllocError, Global};

/// The most faults of a layer that are shown.
pub(crate) const MOST_SHOWN: usize = 100;

/// Returns the number of the kind of a fault of a row.
fn row_kind(why: RowFault) -> u8
    ensures { result ≡ row_kind why }
{
    match why {
        RowFault::NoTable => 17,
        RowFault::WrongCount => 18,
        RowFault::WrongKind => 19,
        RowFault::WordsTooLong => 20,
        RowFault::WrongShape => 21,
        RowFault::OutOfRange => 22,
        RowFault::ZeroSegment => 23,
        RowFault::BadPath => 24,
    }
}

/// Returns the number of the kind of a fault of a text.
fn text_kind(fault: LayerFault) -> u8
    ensures { result ≡ text_kind fault }
{
    match fault {
        LayerFault::OutOfMemory => 0,
        LayerFault::NotCsv => 1,
        LayerFault::NoColumn => 2,
        LayerFault::ColumnTwice => 3,
        LayerFault::FieldCount => 4,
        LayerFault::BadNumber => 5,
        LayerFault::NotWkt => 6,
        LayerFault::NotFlat => 7,
        LayerFault::Curve => 8,
        LayerFault::SeveralParts => 9,
        LayerFault::NotDecimal => 10,
        LayerFault::Finer => 11,
        LayerFault::Unfit(why) => row_kind(why),
    }
}

/// Returns the number of the kind of a fault.
fn kind_of(fault: LayersFault) -> u8
    ensures { result ≡ kind_of fault }
{
    match fault {
        LayersFault::NoTable => 13,
        LayersFault::TableTwice => 14,
        LayersFault::Unread(fault) => text_kind(fault),
        LayersFault::KeyTwice => 15,
        LayersFault::NoKey => 16,
    }
}

/// Returns whether two faults are in one column, or neither in any.
fn is_same_column(one: Option<usize>, other: Option<usize>) -> bool
    ensures { result ≡ is_same_column one other }
{
    match (one, other) {
        (None, None) => true,
        (Some(a), Some(b)) => a == b,
        _ => false,
    }
}

/// Returns whether two faults are of one kind and in one column.
fn is_alike(one: &FoundFault, other: &FoundFault) -> bool
    ensures { result ≡ is_alike one.now other.now }
{
    kind_of(one.fault) == kind_of(other.fault) && is_same_column(one.column, other.column)
}

/// Returns whether a fault of the same kind and column is among some.
fn is_among(kinds: &[FoundFault], found: &FoundFault) -> bool
    ensures { result ≡ list_any (is_alike found.now) kinds.now }
{
    kinds.iter().any(|other| is_alike(found, other))
}

/// Adds a fault to others, unless one of the same kind and column is among them.
fn add_kind(kinds: &mut Vec<FoundFault>, found: &FoundFault) -> Result<(), AllocError>
    ensures { OnOk result (kinds.new.items ≡ with_kind kinds.old.items found.now) }
{
    if is_among(kinds.as_slice(), found) {
        return Ok(());
    }
    Ok(kinds.push(*found)?)
}

/// Returns the first fault of each kind and column.
fn kinds_of(alloc: Global, faults: &[FoundFault]) -> Result<Vec<FoundFault>, AllocError>
    ensures { IfOk result (λ kinds. kinds.items ≡ kinds_of faults.now) }
{
    let mut kinds = Vec::new(alloc);
    for found in faults {
        add_kind(&mut kinds, found)?;
    }
    Ok(kinds)
}

/// Returns how many faults are of the kind and the column of one.
fn count_alike(faults: &[FoundFault], found: &FoundFault) -> usize
    ensures { result ≡ count_by (is_alike found.now) faults.now }
{
    faults.iter().filter(|other| is_alike(found, other)).count()
}

/// Adds the column of a fault, if it is one of a column.
fn add_column(line: &mut Vec<u8>, table: &TableDef, column: Option<usize>) -> Result<(), AllocError>
    ensures { OnOk result (line.new.items ≡ line.old.items ++ column_text table.now column) }
{
    let Some(column) = column else {
        return Ok(());
    };
    line.extend_from_slice(b" in ")?;
    line.extend_from_slice(column_name(table, column).as_bytes())
}

/// Adds how many faults are of the kind and the column of one, on a line.
fn add_kind_line(
    lines: &mut Vec<u8>,
    file: &str,
    table: &TableDef,
    faults: &[FoundFault],
    found: &FoundFault,
) -> Result<(), AllocError>
    ensures { OnOk result (lines.new.items ≡ lines.old.items ++ kind_line file.now table.now faults.now found.now) }
{
    lines.extend_from_slice(file.as_bytes())?;
    lines.extend_from_slice(b": ")?;
    add_count(lines, count_alike(faults, found))?;
    lines.extend_from_slice(b" of ")?;
    lines.extend_from_slice(fault_name(found.fault).as_bytes())?;
    add_column(lines, table, found.column)?;
    lines.extend_from_slice(b"\n")
}

/// Adds how many faults are of each of these kinds and columns, a line each.
fn add_kind_lines(
    lines: &mut Vec<u8>,
    file: &str,
    table: &TableDef,
    faults: &[FoundFault],
    kinds: &[FoundFault],
) -> Result<(), AllocError>
    ensures { OnOk result (lines.new.items ≡ lines.old.items ++ flat_map (kind_line file.now table.now faults.now) kinds.now) }
{
    for found in kinds {
        add_kind_line(lines, file, table, faults, found)?;
    }
    Ok(())
}

/// Adds that not all of so many faults are shown, where they aren't.
fn add_shown(line: &mut Vec<u8>, count: usize) -> Result<(), AllocError>
    ensures { OnOk result (line.new.items ≡ line.old.items ++ shown_words count) }
{
    if count <= MOST_SHOWN {
        return Ok(());
    }
    line.extend_from_slice(b", of which the first ")?;
    add_count(line, MOST_SHOWN)?;
    line.extend_from_slice(b" are shown")
}

/// Adds how many faults there are, on a line.
fn add_all_line(lines: &mut Vec<u8>, file: &str, count: usize) -> Result<(), AllocError>
    ensures { OnOk result (lines.new.items ≡ lines.old.items ++ all_line file.now count) }
{
    lines.extend_from_slice(file.as_bytes())?;
    lines.extend_from_slice(b": ")?;
    add_count(lines, count)?;
    lines.extend_from_slice(b" faults")?;
    add_shown(lines, count)?;
    lines.extend_from_slice(b"\n")
}

/// Adds how many faults there are, in all and of each kind and column, a line each; nothing where there is one alone or none.
pub(crate) fn add_counts(
    alloc: Global,
    lines: &mut Vec<u8>,
    file: &str,
    table: &TableDef,
    faults: &[FoundFault],
) -> Result<(), AllocError>
    ensures { OnOk result (lines.new.items ≡ lines.old.items ++ counts_text file.now table.now faults.now) }
{
    if faults.len() <= 1 {
        return Ok(());
    }
    add_all_line(lines, file, faults.len())?;
    let kinds = kinds_of(alloc, faults)?;
    add_kind_lines(lines, file, table, faults, kinds.as_slice())
}
