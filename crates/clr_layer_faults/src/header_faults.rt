//! The faults of a header: columns that it lacks or has twice.

ghost use Rattle.std.specs.Prelude.{◌≡◌, ◌++◌, IfOk, OnOk, option_to_list};
ghost use Rattle.csv.specs.Records.{fields_of};
ghost use Rattle.clr_records.specs.Records.{field_of};
ghost use Rattle.clr_layer_faults.specs.FoundFaults.{count_fault, header_fault, header_faults, name_count, or_whole};

use crate::columns::{column_count, column_name};
use crate::found::FoundFault;
use clr_layer_changes::LayersFault;
use clr_layer_text::LayerFault;
use clr_records::field;
use clr_rows::{TableDef, Words};
use csv::StringRecord;
use std::alloc::{AllocError, Global};

/// Returns a copy of the field at a position.
fn name_at(alloc: Global, header: &StringRecord, at: usize) -> Result<Words, AllocError>
    ensures { IfOk result (λ name. name ≡ field_of (fields_of header.now) at) }
{
    Words::from_str(alloc, field(header, at))
}

/// Returns the fields of a header.
pub(crate) fn names_of(alloc: Global, header: &StringRecord) -> Result<Vec<Words>, AllocError>
    ensures { IfOk result (λ names. names.items ≡ fields_of header.now) }
{
    let mut names = Vec::new(alloc);
    for at in 0..header.len() {
        names.push(name_at(alloc, header, at)?)?;
    }
    Ok(names)
}

/// Adds a fault behind others, where there is one.
pub(crate) fn add_found(
    found: &mut Vec<FoundFault>,
    one: Option<FoundFault>,
) -> Result<(), AllocError>
    ensures { OnOk result (found.new.items ≡ found.old.items ++ option_to_list one) }
{
    match one {
        Some(fault) => Ok(found.push(fault)?),
        None => Ok(()),
    }
}

/// Returns how often a name stands in a header.
fn name_count(names: &[Words], name: &str) -> usize
    ensures { result ≡ name_count names.now name.now }
{
    names.iter().filter(|other| other.as_str() == name).count()
}

/// Returns what is wrong where a name stands so often in a header.
fn count_fault(count: usize) -> Option<LayerFault>
    ensures { result ≡ count_fault count }
{
    if count == 0 {
        Some(LayerFault::NoColumn)
    } else if count == 1 {
        None
    } else {
        Some(LayerFault::ColumnTwice)
    }
}

/// Returns the fault of a column of a header, if it has one.
fn header_fault(table: &TableDef, names: &[Words], column: usize) -> Option<FoundFault>
    ensures { result ≡ header_fault table.now names.now column }
{
    match count_fault(name_count(names, column_name(table, column))) {
        Some(fault) => Some(FoundFault {
            number: 1,
            column: Some(column),
            fault: LayersFault::Unread(fault),
        }),
        None => None,
    }
}

/// Returns the columns that a header lacks or has twice, in their order.
fn column_faults(
    alloc: Global,
    table: &TableDef,
    names: &[Words],
) -> Result<Vec<FoundFault>, AllocError>
    ensures { IfOk result (λ found. found.items ≡ header_faults table.now names.now) }
{
    let mut found = Vec::new(alloc);
    for column in 0..column_count(table) {
        add_found(&mut found, header_fault(table, names, column))?;
    }
    Ok(found)
}

/// Returns the columns that a header lacks or has twice, or where it lacks none and has none twice, this fault of it as a whole.
pub(crate) fn header_faults(
    alloc: Global,
    table: &TableDef,
    names: &[Words],
    fault: LayerFault,
) -> Result<Vec<FoundFault>, AllocError>
    ensures { IfOk result (λ found. found.items ≡ or_whole fault (header_faults table.now names.now)) }
{
    let mut found = column_faults(alloc, table, names)?;
    if !found.is_empty() {
        return Ok(found);
    }
    found.push(FoundFault {
        number: 1,
        column: None,
        fault: LayersFault::Unread(fault),
    })?;
    Ok(found)
}
