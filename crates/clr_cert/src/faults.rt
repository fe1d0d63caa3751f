//! Why a certificate can't be read.

ghost use Rattle.std.specs.Prelude.{◌≡◌};
ghost use Rattle.clr_readings.specs.Readings.{numbered_fault};
ghost use Rattle.clr_cert.specs.Faults.{cert_lacks_memory, cert_fault_number};
ghost use Rattle.clr_cert.specs.declared.faults.CertFault.TheVariants as fault;

use std::alloc::{AllocError, AllocFailed};

/// Why a record of a certificate can't be read: the first reason that applies.
#[derive(Clone, Copy, Debug, PartialEq, Eq)]
pub enum CertFault {
    /// No memory was found. This fault may come in place of any other answer.
    OutOfMemory = 0,
    /// The bytes aren't UTF-8.
    NotCsv = 1,
    /// A record with another number of fields than six.
    FieldCount = 2,
    /// A record begins with none of the four words.
    BadKind = 3,
    /// A name, a rule, a subject or a witness of a form that isn't allowed, a field that must be
    /// empty and isn't, a root record that names LIVE, or a second root record.
    BadReference = 4,
}

impl CertFault {
    /// Returns the number of a fault, which its line shows.
    pub fn number(self) -> u8
        ensures { result ≡ cert_fault_number self }
    {
        self as u8
    }
}

impl From<AllocError> for CertFault {
    ghost from_gives = { λ _ e. e ≡ fault.OutOfMemory };

    fn from(_e: AllocError) -> CertFault {
        CertFault::OutOfMemory
    }
}

impl<T: Drop> From<AllocFailed<T>> for CertFault {
    ghost from_gives = { λ _ e. e ≡ fault.OutOfMemory };

    fn from(_e: AllocFailed<T>) -> CertFault {
        CertFault::OutOfMemory
    }
}

/// Returns a fault beside the number of its record; beside 0 where no memory was found.
pub(crate) fn numbered_fault(number: usize, fault: CertFault) -> (usize, CertFault)
    ensures { result ≡ numbered_fault cert_lacks_memory number fault }
{
    match fault {
        CertFault::OutOfMemory => (0, fault),
        _ => (number, fault),
    }
}
