//! Texts that are checked, and certificates that are read and written, while memory is wanting: at every budget of bytes a call is
//! answered rightly or with want of memory.

use crate::answers::{Asked, Known, STEP};
use crate::settings::setting_of;
use clr_call_test_kit::{Hoard, first_wrong_while_scarce, refusals};
use clr_cert::{read_certificate, write_certificate};
use clr_check::{Checked, Verdict, check_texts};
use clr_engine::Office;
use clr_office_test_kit::{certificate_of, office_after};
use clr_office_texts::write_office;
use std::alloc::Global;
use std::test::Fail;

/// The certificate of a node that is replaced.
const CERTIFICATE: &str = "member,W1,,,,
need,1,main/1/old,main/2/old,node/9/old,node/10/new
";

/// Returns whether two texts are found clear; none where something else is said than want of memory.
fn is_clear_within(alloc: Global, hoard: &mut Hoard, budget: usize, office: &[u8]) -> Option<bool> {
    hoard.leave(budget).ok()?;
    let said = check_texts(alloc, office, CERTIFICATE.as_bytes());
    hoard.give_back();
    match said {
        Checked::Answer(Verdict::Clear) => Some(true),
        Checked::Answer(Verdict::OutOfMemory) | Checked::OutOfMemory => Some(false),
        _ => None,
    }
}

/// Returns the text of the office of a setting.
fn text_of(alloc: Global, name: &str) -> Option<Vec<u8>> {
    match office_after(alloc, setting_of(name)?) {
        Some(office) => write_office(alloc, &office).ok(),
        None => None,
    }
}

#[test]
fn checks_of_texts(rt: HostRuntime) -> Result<(), Fail> {
    let mut hoard = Hoard::take(rt.alloc())?;
    let text = text_of(rt.alloc(), "a node replaced").ok_or("no office")?;
    let refused = refusals(STEP, |budget| {
        is_clear_within(rt.alloc(), &mut hoard, budget, text.as_slice())
    });
    assert!(rt; refused.unwrap_or(0) > 0);
    Ok(())
}

/// A certificate that is read, and then written with all memory; or the fault of its text.
struct Read;

impl Asked for Read {
    fn lines_within(
        &self,
        alloc: Global,
        hoard: &mut Hoard,
        budget: usize,
        office: &Office,
        text: &str,
    ) -> Option<Vec<u8>> {
        hoard.leave(budget).ok()?;
        let read = read_certificate(alloc, office.schema(), text.as_bytes());
        hoard.give_back();
        match read {
            Ok(certificate) => write_certificate(alloc, office.schema(), &certificate).ok(),
            Err((number, fault)) => {
                let line = format!(in alloc; "{fault:?} at {number}\n").ok()?;
                Vec::from_slice(alloc, line.as_bytes()).ok()
            }
        }
    }
}

/// Certificates, and what may be read of them.
const READ: &str = "the crossing
----
member,W1,,,,
need,1,main/1/old,main/2/old,node/9/old,node/10/new
----
OutOfMemory at 0
--
member,W1,,,,
need,1,main/1/old,main/2/old,node/9/old,node/10/new
--
====
----
member,W1,,,,
need,1,main/1/old,main/2/old,node/9/old,nod
----
OutOfMemory at 0
--
BadReference at 2
--
====
";

#[test]
fn certificates_that_are_read(rt: HostRuntime) -> Result<(), Fail> {
    let wrong = first_wrong_while_scarce(rt.alloc(), &Known(Read), STEP, READ)?;
    assert_eq!(rt; wrong, None);
    Ok(())
}

/// The text of a certificate that is written, or a line that says that none is.
struct Written;

impl Asked for Written {
    fn lines_within(
        &self,
        alloc: Global,
        hoard: &mut Hoard,
        budget: usize,
        office: &Office,
        text: &str,
    ) -> Option<Vec<u8>> {
        let certificate = certificate_of(alloc, office.schema(), text)?;
        hoard.leave(budget).ok()?;
        let written = write_certificate(alloc, office.schema(), &certificate);
        hoard.give_back();
        match written {
            Ok(text) => Some(text),
            Err(_) => Vec::from_slice(alloc, b"out of memory\n").ok(),
        }
    }
}

/// Certificates, and what may be written of them.
const WRITTEN: &str = "the crossing
----
member,W1,,,,
member,W2,,,,
member,W3,,,,
need,1,main/1/old,main/2/old,node/11/old,
----
out of memory
--
member,W1,,,,
member,W2,,,,
member,W3,,,,
need,1,main/1/old,main/2/old,node/11/old,
--
====
";

#[test]
fn certificates_that_are_written(rt: HostRuntime) -> Result<(), Fail> {
    let wrong = first_wrong_while_scarce(rt.alloc(), &Known(Written), STEP, WRITTEN)?;
    assert_eq!(rt; wrong, None);
    Ok(())
}
