//! The names of faults of scripts and certificates.
ghost use Rattle.std.specs.Prelude.{◌≡◌};
ghost use Rattle.clr_record_explanations.specs.FaultWords.{certificate_fault_words, script_fault_words};

use clr_cert::CertFault;
use clr_scripts::RecordFault;

/// Returns the word `script`, and the number and the name of a fault of a script.
pub fn script_fault_words(fault: RecordFault) -> &'static str
    ensures { result.now ≡ script_fault_words fault }
{
    match fault {
        RecordFault::OutOfMemory => "script 0 OutOfMemory",
        RecordFault::NotCsv => "script 1 NotCsv",
        RecordFault::FieldCount => "script 2 FieldCount",
        RecordFault::BadWord => "script 3 BadWord",
        RecordFault::NoTable => "script 4 NoTable",
        RecordFault::BadNumber => "script 5 BadNumber",
    }
}

/// Returns the word `certificate`, and the number and the name of a fault of a certificate.
pub fn certificate_fault_words(fault: CertFault) -> &'static str
    ensures { result.now ≡ certificate_fault_words fault }
{
    match fault {
        CertFault::OutOfMemory => "certificate 0 OutOfMemory",
        CertFault::NotCsv => "certificate 1 NotCsv",
        CertFault::FieldCount => "certificate 2 FieldCount",
        CertFault::BadKind => "certificate 3 BadKind",
        CertFault::BadReference => "certificate 4 BadReference",
    }
}
