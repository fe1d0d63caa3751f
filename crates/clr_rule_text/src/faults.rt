//! Why an office text can't be read.

ghost use Rattle.std.specs.Prelude.{◌≡◌};
ghost use Rattle.clr_rule_text.specs.declared.faults.TextFault.TheVariants as text_fault;
ghost use Rattle.clr_rule_text.specs.Faults.{text_fault_number};

use std::alloc::{AllocError, AllocFailed};

/// Why an office text can't be read: the first reason that applies.
#[derive(Clone, Copy, Debug, PartialEq, Eq)]
pub enum TextFault {
    /// No memory was found. This fault may come in place of any other answer.
    OutOfMemory = 0,
    /// The bytes aren't JSON.
    NotJson = 1,
    /// A key is missing, or a value has another JSON type, word or length than it must have.
    BadField = 2,
    /// The tables make no schema.
    BadSchema = 3,
    /// A rule names a table or a column that the schema hasn't, or the rules make no book over the
    /// schema.
    BadRule = 4,
    /// A row that doesn't fit the schema.
    BadRow = 5,
    /// A cell that stands twice in one list.
    RepeatedCell = 6,
    /// A workspace can't stand: its parent is neither LIVE nor an earlier one, or the workspaces
    /// make no tree.
    BadPart = 7,
}

impl TextFault {
    /// Returns the number of a fault, which its line shows.
    pub fn number(self) -> u8
        ensures { result ≡ text_fault_number self }
    {
        self as u8
    }
}

impl From<AllocError> for TextFault {
    ghost from_gives = { λ _ e. e ≡ text_fault.OutOfMemory };

    fn from(_e: AllocError) -> TextFault {
        TextFault::OutOfMemory
    }
}

impl<T: Drop> From<AllocFailed<T>> for TextFault {
    ghost from_gives = { λ _ e. e ≡ text_fault.OutOfMemory };

    fn from(_e: AllocFailed<T>) -> TextFault {
        TextFault::OutOfMemory
    }
}
