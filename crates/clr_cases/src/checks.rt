//! What is said of certificates in an office, as lines.

use clr_cert::read_certificate;
use clr_check::check;
use clr_engine::Office;
use clr_office_test_kit::{certificate_of, line_of};
use std::alloc::Global;

/// Returns the line of the verdict on the certificate of a text.
pub fn check_line(alloc: Global, office: &Office, text: &str) -> Option<Vec<u8>> {
    let certificate = certificate_of(alloc, office.schema(), text)?;
    let verdict = check(alloc, office, &certificate);
    line_of(alloc, office.schema(), &certificate, &verdict)
}

/// Returns with which fault the text of a certificate is read, and at which record.
pub fn fault_line(alloc: Global, office: &Office, text: &str) -> Option<Vec<u8>> {
    let (number, fault) = read_certificate(alloc, office.schema(), text.as_bytes()).err()?;
    let line = format!(in alloc; "{fault:?} at {number}\n").ok()?;
    Vec::from_slice(alloc, line.as_bytes()).ok()
}
