//! Why a run ends without an exit status.

ghost use Rattle.std.specs.Prelude.{◌≡◌};
ghost use Rattle.clr_process_io.specs.ExitStatuses.{exit_status};
ghost use Rattle.clr_process_io.specs.declared.faults.RunFault.TheVariants as run_fault;

use clr_cert::CertFault;
use clr_rule_text::TextFault;
use clr_scripts::RecordFault;
use std::alloc::{AllocError, AllocFailed};
use thiserror::Error;

/// Why a run ended without an exit status. It is displayed as its line.
#[derive(Clone, Copy, Debug, PartialEq, Eq, Error)]
pub enum RunFault {
    /// The reader failed.
    #[error("read failed")]
    ReadFailed,
    /// The writer failed. How much of the output went out is not known.
    #[error("write failed")]
    WriteFailed,
    /// The input has more than `MOST_INPUT_BYTES`.
    #[error("too long")]
    TooLong,
    /// No line of the input is the separator.
    #[error("no separator")]
    NoSeparator,
    /// The text before the separator is no office.
    #[error("unreadable office {number} {fault:?}", number = *.0 as u8, fault = .0)]
    BadOffice(TextFault),
    /// The number of the first record of the script that can't be read, from 1, and why.
    #[error("unreadable script {number} {fault:?} at {record}", number = *.1 as u8, fault = .1, record = .0)]
    BadScript(usize, RecordFault),
    /// The number of the first record of the certificate that can't be read, from 1, and why.
    #[error("unreadable certificate {number} {fault:?} at {record}", number = *.1 as u8, fault = .1, record = .0)]
    BadCertificate(usize, CertFault),
    /// No memory was found. This fault may come in place of any other answer.
    #[error("out of memory")]
    OutOfMemory,
}

/// Why files give no texts: the position of the first file that has the fault, and the fault.
#[derive(Clone, Copy, Debug, PartialEq, Eq)]
pub struct FileFault {
    pub file: usize,
    pub fault: RunFault,
}

impl RunFault {
    /// Returns the exit status of a program that ends with this fault: 3 for `OutOfMemory`, and
    /// otherwise 2.
    pub fn status(self) -> u8
        ensures { result ≡ exit_status self }
    {
        match self {
            RunFault::OutOfMemory => 3,
            _ => 2,
        }
    }
}

impl From<AllocError> for RunFault {
    ghost from_gives = { λ _ e. e ≡ run_fault.OutOfMemory };

    fn from(_e: AllocError) -> RunFault {
        RunFault::OutOfMemory
    }
}

impl<T: Drop> From<AllocFailed<T>> for RunFault {
    ghost from_gives = { λ _ e. e ≡ run_fault.OutOfMemory };

    fn from(_e: AllocFailed<T>) -> RunFault {
        RunFault::OutOfMemory
    }
}
