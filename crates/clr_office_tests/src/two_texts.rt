//! Checks of an office text and a certificate.

use clr_cert::CertFault;
use clr_check::{Checked, TextFault, Verdict, check_texts, judge_texts};
use clr_needs::{Need, VersionId};
use clr_office_test_kit::line_of;
use clr_rows::CellId;
use clr_rules::{Ask, Broken};
use std::alloc::Global;
use std::test::Fail;

/// The tables, the rules, and two mains of LIVE, which cross at (5, 5).
const CROSSING: &str = r#"{"format":3,"tables":[
{"name":"node","columns":[["kind","TEXT"]],"shape":"POINT"},
{"name":"main","columns":[["code","TEXT"]],"shape":"SEGMENT"}],
"rules":[{"kind":"UNIQUE","subject":{"table":"main"},"columns":["code"]},
{"kind":"CROSSING","a":{"table":"main"},"b":{"table":"main"},"server":{"table":"node"}}],
"live":[{"t":"main","k":1,"v":["A"],"s":[0,0,10,10]},
{"t":"main","k":2,"v":["C"],"s":[0,10,10,0]}"#;

/// A node that serves the crossing, and W1, which puts another in its place.
const REPLACED: &str = r#",{"t":"node","k":9,"v":["valve"],"s":[5,5]}],
"workspaces":[{"name":"W1","parent":"LIVE","rows":[{"t":"node","k":9,"gone":true},
{"t":"node","k":10,"v":["valve"],"s":[5,5]}]}]}"#;

/// The node of LIVE, and W1, which is kept and deletes it.
const DELETED: &str = r#",{"t":"node","k":9,"v":["valve"],"s":[5,5]}],
"workspaces":[{"name":"W1","parent":"LIVE","kept":true,"rows":[{"t":"node","k":9,"gone":true}]}]}"#;

/// No such node, and no workspace.
const WITHOUT: &str = "]}";

/// The front of the entry for the crossing of the mains.
const NEED: &str = "need,1,main/1/old,main/2/old,node/9/old,";

/// Returns what is said of a network behind the mains, and of a certificate with the member W1 and a record.
fn check_of(alloc: Global, network: &str, record: (&str, &str)) -> Result<Checked, Fail> {
    let office = format!(in alloc; "{CROSSING}{network}")?;
    let certificate = format!(in alloc; "member,W1,,,,\n{}{}", record.0, record.1)?;
    Ok(check_texts(alloc, office.as_bytes(), certificate.as_bytes()))
}

fn main(key: i64) -> CellId {
    CellId { table: 1, key }
}

fn old_main(key: i64) -> VersionId {
    VersionId {
        cell: main(key),
        fresh: false,
    }
}

/// Returns the verdict that nothing covers the crossing of the mains.
fn no_cover() -> Checked {
    let need = Need::new(Ask::plain(1), old_main(1), Some(old_main(2)));
    Checked::Answer(Verdict::Uncovered(need))
}

/// Returns the answer that nothing serves the crossing, in LIVE or in the workspace at a position.
fn no_server_at(position: usize) -> Checked {
    Checked::Unheld {
        position,
        need: Broken::new(Ask::plain(1), main(1), Some(main(2))),
    }
}

#[test]
fn texts_are_checked_in_turn(rt: HostRuntime) -> Result<(), Fail> {
    let bad = Checked::BadCertificate(2, CertFault::BadReference);
    let repeated = Checked::Answer(Verdict::RepeatedMember(1));
    let cases = [
        (
            REPLACED,
            (NEED, "node/10/new\n"),
            Checked::Answer(Verdict::Clear),
        ),
        (REPLACED, (NEED, "\n"), no_cover()),
        (REPLACED, ("member,W1,,,,\n", ""), repeated),
        (REPLACED, (NEED, "nod"), bad),
        (DELETED, (NEED, "nod"), no_server_at(1)),
        (WITHOUT, (NEED, "nod"), no_server_at(0)),
        ("]", (NEED, "nod"), Checked::BadOffice(TextFault::NotJson)),
    ];
    for (network, record, said) in cases {
        assert!(rt; check_of(rt.alloc(), network, record)? == said);
    }
    Ok(())
}

/// Returns whether the verdict on a certificate with the member W1 and a record has this line, in a network behind the mains.
fn is_line_of(
    alloc: Global,
    network: &str,
    record: (&str, &str),
    line: &str,
) -> Result<bool, Fail> {
    let office = format!(in alloc; "{CROSSING}{network}")?;
    let certificate = format!(in alloc; "member,W1,,,,\n{}{}", record.0, record.1)?;
    let judged = judge_texts(alloc, office.as_bytes(), certificate.as_bytes());
    let check = judged
        .ok()
        .ok_or("the texts give no office with a certificate")?;
    let schema = check.office.schema();
    let said = line_of(alloc, schema, &check.certificate, &check.verdict);
    Ok(said.ok_or("no line")?.as_slice() == line.as_bytes())
}

#[test]
fn verdicts_have_the_lines_of_what_was_read(rt: HostRuntime) -> Result<(), Fail> {
    let alloc = rt.alloc();
    let uncovered = "6 Uncovered rule 1 main/1/old main/2/old\n";
    let repeated = "1 RepeatedMember W1\n";
    assert!(rt; is_line_of(alloc, REPLACED, (NEED, "node/10/new\n"), "clear\n")?);
    assert!(rt; is_line_of(alloc, REPLACED, (NEED, "\n"), uncovered)?);
    assert!(rt; is_line_of(alloc, REPLACED, ("member,W1,,,,\n", ""), repeated)?);
    Ok(())
}
