//! The line of each fault of a run.

use clr_cert::CertFault;
use clr_office::RunFault;
use clr_office_reading::TextFault;
use clr_scripts::RecordFault;
use std::test::Fail;

#[test]
fn fault_lines(rt: HostRuntime) -> Result<(), Fail> {
    let faults = [
        (RunFault::ReadFailed, "read failed"),
        (RunFault::WriteFailed, "write failed"),
        (RunFault::TooLong, "too long"),
        (RunFault::NoSeparator, "no separator"),
        (
            RunFault::BadOffice(TextFault::BadField),
            "unreadable office 2 BadField",
        ),
        (
            RunFault::BadScript(7, RecordFault::BadWord),
            "unreadable script 3 BadWord at 7",
        ),
        (
            RunFault::BadCertificate(2, CertFault::BadReference),
            "unreadable certificate 4 BadReference at 2",
        ),
        (RunFault::OutOfMemory, "out of memory"),
    ];
    for (fault, want) in faults {
        let line = format!(in rt.alloc(); "{fault}")?;
        assert_eq!(rt; line.as_str(), want);
    }
    Ok(())
}
