//! Why a script or a text of edits can't be read.

ghost use Rattle.std.specs.Prelude.{◌≡◌};
ghost use Rattle.clr_scripts.specs.declared.faults.RecordFault.TheVariants as record_fault;
ghost use Rattle.clr_scripts.specs.Faults.{record_fault_number};

use std::alloc::{AllocError, AllocFailed};

/// Why a record of a script can't be read: the first reason that applies.
#[derive(Clone, Copy, Debug, PartialEq, Eq)]
pub enum RecordFault {
    /// No memory was found. This fault may come in place of any other answer.
    OutOfMemory = 0,
    /// The bytes aren't UTF-8.
    NotCsv = 1,
    /// A record has another number of fields than its word asks for.
    FieldCount = 2,
    /// A word that isn't known where it stands.
    BadWord = 3,
    /// No table has the name.
    NoTable = 4,
    /// A number that isn't decimal in its one form, or not within 64 bits.
    BadNumber = 5,
}

impl RecordFault {
    /// Returns the number of a fault, which its line shows.
    pub fn number(self) -> u8
        ensures { result ≡ record_fault_number self }
    {
        self as u8
    }
}

impl From<AllocError> for RecordFault {
    ghost from_gives = { λ _ e. e ≡ record_fault.OutOfMemory };

    fn from(_e: AllocError) -> RecordFault {
        RecordFault::OutOfMemory
    }
}

impl<T: Drop> From<AllocFailed<T>> for RecordFault {
    ghost from_gives = { λ _ e. e ≡ record_fault.OutOfMemory };

    fn from(_e: AllocFailed<T>) -> RecordFault {
        RecordFault::OutOfMemory
    }
}
