//! Why a pass ends before the stream does.

ghost use Rattle.std.specs.Prelude.{◌≡◌};
ghost use Rattle.clr_cut_streams.specs.Faults.{pass_fault};
ghost use Rattle.clr_cut_streams.specs.declared.faults.PassFault.TheVariants as fault;

use clr_layer_changes::LayersFault;
use clr_layer_streams::StreamFault;
use std::alloc::{AllocError, AllocFailed};

/// Why a pass ends before the stream does.
#[derive(Clone, Copy, Debug, PartialEq, Eq)]
pub enum PassFault {
    /// No memory was found. This fault may come in place of any other answer.
    OutOfMemory,
    /// A read of the source failed.
    Unreadable,
    /// A sink failed.
    WriteFailed,
    /// The record of this number, counted from 1, has a fault.
    Record(usize, LayersFault),
}

impl From<StreamFault> for PassFault {
    ghost from_gives = { λ e f. f ≡ pass_fault e };

    fn from(e: StreamFault) -> PassFault {
        match e {
            StreamFault::OutOfMemory => PassFault::OutOfMemory,
            StreamFault::Unreadable => PassFault::Unreadable,
            StreamFault::Record(number, fault) => {
                PassFault::Record(number, LayersFault::Unread(fault))
            }
        }
    }
}

impl From<AllocError> for PassFault {
    ghost from_gives = { λ _ e. e ≡ fault.OutOfMemory };

    fn from(_e: AllocError) -> PassFault {
        PassFault::OutOfMemory
    }
}

impl<T: Drop> From<AllocFailed<T>> for PassFault {
    ghost from_gives = { λ _ e. e ≡ fault.OutOfMemory };

    fn from(_e: AllocFailed<T>) -> PassFault {
        PassFault::OutOfMemory
    }
}
