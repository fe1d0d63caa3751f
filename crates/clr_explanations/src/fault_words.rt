//! The names of faults of office texts.
ghost use Rattle.std.specs.Prelude.{◌≡◌};
ghost use Rattle.clr_explanations.specs.FaultWords.{office_fault_words};

use clr_office_reading::TextFault;

/// Returns the word `office`, and the number and the name of a fault of an office text.
pub fn office_fault_words(fault: TextFault) -> &'static str
    ensures { result.now ≡ office_fault_words fault }
{
    match fault {
        TextFault::OutOfMemory => "office 0 OutOfMemory",
        TextFault::NotJson => "office 1 NotJson",
        TextFault::BadField => "office 2 BadField",
        TextFault::BadSchema => "office 3 BadSchema",
        TextFault::BadRule => "office 4 BadRule",
        TextFault::BadRow => "office 5 BadRow",
        TextFault::RepeatedCell => "office 6 RepeatedCell",
        TextFault::BadPart => "office 7 BadPart",
    }
}
