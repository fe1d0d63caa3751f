//! Why a layer can't be read.

ghost use Rattle.std.specs.Prelude.{◌≡◌};
ghost use Rattle.clr_readings.specs.Readings.{numbered_fault};
ghost use Rattle.clr_layer_text.specs.Faults.{layer_lacks_memory};
ghost use Rattle.clr_layer_text.specs.declared.faults.LayerFault.TheVariants as fault;

use clr_rows::RowFault;
use std::alloc::{AllocError, AllocFailed};

/// Why a record of a layer can't be read: the first reason that applies.
#[derive(Clone, Copy, Debug, PartialEq, Eq)]
pub enum LayerFault {
    /// No memory was found. This fault may come in place of any other answer.
    OutOfMemory,
    /// The bytes aren't UTF-8.
    NotCsv,
    /// The header lacks `KEY`, a column of the table, or `WKT` where its rows have shapes.
    NoColumn,
    /// One of these names stands twice in the header, or is that of a column and of the shapes.
    ColumnTwice,
    /// A record with another number of fields than the header.
    FieldCount,
    /// A key or a whole number that isn't decimal in its one form.
    BadNumber,
    /// A shape that isn't WKT of a point or a line.
    NotWkt,
    /// A shape with more than two coordinates to a point, or one that says so.
    NotFlat,
    /// A shape with curves.
    Curve,
    /// A shape of several parts.
    SeveralParts,
    /// A coordinate that is no decimal number: an optional `-`, a whole number in its one form, and
    /// an optional `.` with digits behind it.
    NotDecimal,
    /// A coordinate that is finer than a millimetre.
    Finer,
    /// A row that doesn't fit the table.
    Unfit(RowFault),
}

impl From<AllocError> for LayerFault {
    ghost from_gives = { λ _ e. e ≡ fault.OutOfMemory };

    fn from(_e: AllocError) -> LayerFault {
        LayerFault::OutOfMemory
    }
}

impl<T: Drop> From<AllocFailed<T>> for LayerFault {
    ghost from_gives = { λ _ e. e ≡ fault.OutOfMemory };

    fn from(_e: AllocFailed<T>) -> LayerFault {
        LayerFault::OutOfMemory
    }
}

/// Returns a fault beside the number of its record; beside 0 where no memory was found.
pub(crate) fn numbered_fault(number: usize, fault: LayerFault) -> (usize, LayerFault)
    ensures { result ≡ numbered_fault layer_lacks_memory number fault }
{
    match fault {
        LayerFault::OutOfMemory => (0, fault),
        _ => (number, fault),
    }
}
