//! Why a layer can't be read on.

ghost use Rattle.std.specs.Prelude.{◌≡◌};
ghost use Rattle.csv.specs.Reading.{error_kind};
ghost use Rattle.clr_layer_streams.specs.Faults.{fault_of, record_fault};

use clr_layer_text::LayerFault;
use csv::{Error, ErrorKind};

/// Why a layer can't be read on.
#[derive(Clone, Copy, Debug, PartialEq, Eq)]
pub enum StreamFault {
    /// No memory was found. This fault may come in place of any other answer.
    OutOfMemory,
    /// A read of the source failed.
    Unreadable,
    /// The record of this number, counted from 1, has a fault.
    Record(usize, LayerFault),
}

/// Returns why a record of a number can't be read where no read of the source has failed, by the error of the reader.
pub(crate) fn fault_of(number: usize, error: &Error) -> StreamFault
    ensures { result ≡ fault_of number (error_kind error.now) }
{
    match error.kind() {
        ErrorKind::Utf8 { .. } => StreamFault::Record(number, LayerFault::NotCsv),
        _ => StreamFault::OutOfMemory,
    }
}

/// Returns the fault of a record of a number, or that no memory was found.
pub(crate) fn record_fault(number: usize, fault: LayerFault) -> StreamFault
    ensures { result ≡ record_fault number fault }
{
    match fault {
        LayerFault::OutOfMemory => StreamFault::OutOfMemory,
        _ => StreamFault::Record(number, fault),
    }
}
