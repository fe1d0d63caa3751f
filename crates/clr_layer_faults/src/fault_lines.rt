//! The line of a layer that can't be read.

ghost use Rattle.std.specs.Prelude.{◌≡◌, ◌++◌, IfOk, OnOk};
ghost use Rattle.clr_layer_faults.specs.LayerFaultLines.{fault_word, table_fault_line, text_fault_word};

use clr_layer_changes::{LayerFault, LayersFault};
use clr_lines::{add_count, row_fault_word};
use std::alloc::{AllocError, Global};

/// Adds a text's fault: its number and its name, and behind them the name of the row's fault where it is one of the row.
fn add_text_fault(line: &mut Vec<u8>, fault: LayerFault) -> Result<(), AllocError>
    ensures { OnOk result (line.new.items ≡ line.old.items ++ text_fault_word fault) }
{
    match fault {
        LayerFault::OutOfMemory => line.extend_from_slice(b"0 OutOfMemory"),
        LayerFault::NotCsv => line.extend_from_slice(b"1 NotCsv"),
        LayerFault::NoColumn => line.extend_from_slice(b"2 NoColumn"),
        LayerFault::ColumnTwice => line.extend_from_slice(b"3 ColumnTwice"),
        LayerFault::FieldCount => line.extend_from_slice(b"4 FieldCount"),
        LayerFault::BadNumber => line.extend_from_slice(b"5 BadNumber"),
        LayerFault::NotWkt => line.extend_from_slice(b"6 NotWkt"),
        LayerFault::NotFlat => line.extend_from_slice(b"7 NotFlat"),
        LayerFault::Curve => line.extend_from_slice(b"8 Curve"),
        LayerFault::SeveralParts => line.extend_from_slice(b"9 SeveralParts"),
        LayerFault::NotDecimal => line.extend_from_slice(b"10 NotDecimal"),
        LayerFault::Finer => line.extend_from_slice(b"11 Finer"),
        LayerFault::Unfit(why) => {
            line.extend_from_slice(b"12 Unfit ")?;
            line.extend_from_slice(row_fault_word(why).as_bytes())
        }
    }
}

/// Adds a layer's fault in the same way.
fn add_fault(line: &mut Vec<u8>, fault: LayersFault) -> Result<(), AllocError>
    ensures { OnOk result (line.new.items ≡ line.old.items ++ fault_word fault) }
{
    match fault {
        LayersFault::NoTable => line.extend_from_slice(b"13 NoTable"),
        LayersFault::TableTwice => line.extend_from_slice(b"14 TableTwice"),
        LayersFault::Unread(fault) => add_text_fault(line, fault),
        LayersFault::KeyTwice => line.extend_from_slice(b"15 KeyTwice"),
        LayersFault::NoKey => line.extend_from_slice(b"16 NoKey"),
    }
}

/// Returns the line of a layer with a fault: the name of its table, the fault's number and name, and the number of the record, or 0 where
/// the fault is one of the whole layer.
pub fn table_fault_line(
    alloc: Global,
    table: &str,
    fault: LayersFault,
    number: usize,
) -> Result<Vec<u8>, AllocError>
    ensures { IfOk result (λ line. line.items ≡ table_fault_line table.now fault number) }
{
    let mut line = Vec::from_slice(alloc, b"unreadable layer ")?;
    line.extend_from_slice(table.as_bytes())?;
    line.push(b' ')?;
    add_fault(&mut line, fault)?;
    line.extend_from_slice(b" at ")?;
    add_count(&mut line, number)?;
    line.push(b'\n')?;
    Ok(line)
}
