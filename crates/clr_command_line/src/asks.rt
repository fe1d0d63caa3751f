//! What the words of a command line can ask for.

ghost use Rattle.std.specs.Prelude.{◌≡◌};
ghost use Rattle.clap.specs.Words.{kind_of};
ghost use Rattle.clr_command_line.specs.Asks.{IsMemory};
ghost use Rattle.clr_command_line.specs.declared.asks.AskFault.TheVariants.{OutOfMemory};

use clap::error::ErrorKind;
use clr_rows::{Names, Words};
use std::alloc::{AllocError, AllocFailed};

/// The orders in which members are to be merged.
#[derive(Clone, Copy, Debug, PartialEq, Eq)]
pub enum Orders {
    /// Every order.
    Every,
    /// The order in which they are named.
    AsNamed,
}

/// What words ask of an office text, and of a second text where there is one.
#[derive(Debug, Drop)]
pub enum Ask {
    /// The rules that LIVE's rows break.
    Audit,
    /// What the steps of a script print; the second text is the script.
    Run,
    /// Whether these children of LIVE can be merged in these orders.
    Plan(Orders, Names),
    /// Whether these children of a root can be merged in these orders: the root, and the children.
    PlanUnder(Orders, Words, Names),
    /// Whether a certificate clears its members; the second text is the certificate.
    Check,
    /// The merges of these workspaces in this order, by a certificate that clears its members; the
    /// second text is the certificate.
    Merge(Names),
}

/// Why the words of a command line ask for nothing.
#[derive(Drop)]
pub enum AskFault {
    /// The words are refused, or ask for help or the version: what is to be printed, and where.
    Refused(clap::Error),
    /// No memory was found. This fault may come in place of any other answer.
    OutOfMemory,
}

impl AskFault {
    /// Returns the fault that the parser of the command line tells.
    pub fn of(error: clap::Error) -> AskFault
        ensures { kind_of error ≡ ErrorKind.OutOfMemory → IsMemory result }
    {
        if error.kind() == ErrorKind::OutOfMemory {
            AskFault::OutOfMemory
        } else {
            AskFault::Refused(error)
        }
    }
}

impl From<AllocError> for AskFault {
    ghost from_gives = { λ _ e. e ≡ OutOfMemory };

    fn from(_e: AllocError) -> AskFault {
        AskFault::OutOfMemory
    }
}

impl<T: Drop> From<AllocFailed<T>> for AskFault {
    ghost from_gives = { λ _ e. e ≡ OutOfMemory };

    fn from(_e: AllocFailed<T>) -> AskFault {
        AskFault::OutOfMemory
    }
}
