//! What commands are answered in an office, under a certificate or without one, as lines.

use crate::offices::office_after;
use clr_check::{Verdict, check};
use clr_engine::Office;
use clr_office_test_kit::{certificate_of, office_of, replies_to, rows_of, run_under};
use clr_office_texts::write_office;
use std::alloc::Global;

/// Returns what commands are answered under the certificate of a text, or the line of its verdict, and the rows of the root after them.
fn run_with_rows(
    alloc: Global,
    office: &mut Office,
    text: &str,
    commands: &str,
) -> Option<Vec<u8>> {
    let certificate = certificate_of(alloc, office.schema(), text)?;
    let mut lines = run_under(alloc, office, &certificate, commands)?;
    let rows = rows_of(alloc, office, certificate.root.as_str())?;
    lines.extend_from_slice(rows.as_slice()).ok()?;
    Some(lines)
}

/// Returns whether the text of a certificate clears its members.
fn is_clear(alloc: Global, office: &Office, text: &str) -> Option<bool> {
    let certificate = certificate_of(alloc, office.schema(), text)?;
    Some(check(alloc, office, &certificate) == Verdict::Clear)
}

/// Returns what commands are answered all at once, where a certificate is clear, and the rows of LIVE after them.
fn replies_where_clear(
    alloc: Global,
    office: &mut Office,
    text: &str,
    commands: &str,
) -> Option<Vec<u8>> {
    if !is_clear(alloc, office, text)? {
        return None;
    }
    let mut lines = replies_to(alloc, office, commands)?;
    let rows = rows_of(alloc, office, "LIVE")?;
    lines.extend_from_slice(rows.as_slice()).ok()?;
    Some(lines)
}

/// Returns what commands are answered under a certificate, which stands before them and a line `--`, and the rows of the root after them.
pub fn cleared_lines(alloc: Global, office: &mut Office, asked: &str) -> Option<Vec<u8>> {
    let (certificate, commands) = asked.split_once("--\n")?;
    run_with_rows(alloc, office, certificate, commands)
}

/// Returns what commands are answered all at once, where the certificate before them and a line `--` is clear, and the rows of LIVE
/// after them.
pub fn lines_where_clear(alloc: Global, office: &mut Office, asked: &str) -> Option<Vec<u8>> {
    let (certificate, commands) = asked.split_once("--\n")?;
    replies_where_clear(alloc, office, certificate, commands)
}

/// Returns what commands are answered under a certificate, in the office of a text and of the script before, where they leave the office
/// of another text. Certificate, commands and that text are parted by lines `--`; without it the office stays as it was.
pub fn lines_with_office(
    alloc: Global,
    office: &mut Office,
    before: (&str, &str),
    asked: &str,
) -> Option<Vec<u8>> {
    let (certificate, rest) = asked.split_once("--\n")?;
    let (commands, after) = rest.split_once("--\n")?;
    let certificate = certificate_of(alloc, office.schema(), certificate)?;
    let lines = run_under(alloc, office, &certificate, commands)?;
    let left = write_office(alloc, office).ok()?;
    let wanted = if after.is_empty() {
        office_after(alloc, before.0, before.1)?
    } else {
        office_of(alloc, after)?
    };
    let wanted = write_office(alloc, &wanted).ok()?;
    if left.as_slice() == wanted.as_slice() {
        Some(lines)
    } else {
        None
    }
}
