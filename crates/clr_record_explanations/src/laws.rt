//! Laws of the numbers that stand beside the faults of scripts and certificates.
ghost use Rattle.clr_record_explanations.specs.CertificateFaults.{CertificateFaultLaw};
ghost use Rattle.clr_record_explanations.specs.ScriptFaults.{ScriptFaultLaw};

/// Where a script can't be read, the number told with its fault is 1 if the bytes aren't UTF-8. Else the
/// record of this number answers that fault on its own, as a step or as an edit, and each record before
/// it can be read; or all records can be read, and that record is an `apply` that asks for more edits
/// than records stand behind it.
pub fn script_faults_are_first()
    ensures { ScriptFaultLaw }
{}

/// Where a certificate can't be read, the number told with its fault is 1 if the bytes aren't UTF-8. Else
/// the record of this number answers that fault on its own, and each record before it can be read. What
/// stands before a record matters to its own reading in one way alone: whether a root record is there.
pub fn certificate_faults_are_first()
    ensures { CertificateFaultLaw }
{}
