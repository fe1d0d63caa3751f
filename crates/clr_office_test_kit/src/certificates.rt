//! Certificates of texts, and lines of verdicts on them.

use clr_cert::{Certificate, read_certificate};
use clr_check::Verdict;
use clr_lines::verdict_line_in_turn;
use clr_rows::Schema;
use std::alloc::Global;

/// Returns the certificate of a text.
pub fn certificate_of(alloc: Global, schema: &Schema, text: &str) -> Option<Certificate> {
    read_certificate(alloc, schema, text.as_bytes()).ok()
}

/// Returns the names of the members of a certificate.
fn names_of(alloc: Global, certificate: &Certificate) -> Option<Vec<&str>> {
    let mut names = Vec::new(alloc);
    for name in certificate.members.as_slice() {
        names.push(name.as_str()).ok()?;
    }
    Some(names)
}

/// Returns the line of a verdict on the root, the members and the precedences of a certificate.
pub fn line_of(
    alloc: Global,
    schema: &Schema,
    certificate: &Certificate,
    verdict: &Verdict,
) -> Option<Vec<u8>> {
    let names = names_of(alloc, certificate)?;
    let before = certificate.before.as_slice();
    let root = certificate.root.as_str();
    verdict_line_in_turn(alloc, schema, names.as_slice(), before, root, verdict).ok()
}
