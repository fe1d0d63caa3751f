//! Drafts in which a rule doesn't hold: what is said of them, and that they are given back.

use clr_engine::{AdmitFault, Draft};
use clr_lines::{add_need, rows_lines};
use clr_office_texts::read_office;
use std::alloc::{AllocError, Global};

/// A table of codes of which no two may be the same, up to the rows of LIVE.
const CODES: &str = r#"{"format":3,"tables":[
{"name":"code","columns":[["code","TEXT"]],"shape":"NONE"}],
"rules":[{"kind":"UNIQUE","subject":{"table":"code"},"columns":["code"]}],
"live":["#;

/// Adds where a rule doesn't hold, and which.
fn add_fault(line: &mut Vec<u8>, draft: &Draft, fault: AdmitFault) -> Option<()> {
    let AdmitFault::Broken { position, need } = fault else {
        return None;
    };
    let name = draft.name_at(position)?;
    line.extend_from_slice(name.as_bytes()).ok()?;
    line.extend_from_slice(b" ").ok()?;
    add_need(line, draft.schema(), &need).ok()?;
    line.extend_from_slice(b"\n").ok()
}

/// Returns what is said of a draft that is given back, and its rows of LIVE.
fn lines_of(alloc: Global, draft: &Draft, fault: AdmitFault) -> Option<Vec<u8>> {
    let mut lines = Vec::new(alloc);
    add_fault(&mut lines, draft, fault)?;
    let rows = rows_lines(alloc, draft.schema(), draft.live()).ok()?;
    lines.extend_from_slice(rows.as_slice()).ok()?;
    Some(lines)
}

/// Returns the lines of why a draft isn't admitted, with its rows of LIVE, or no bytes where it is admitted.
fn fault_lines(alloc: Global, draft: Draft) -> Option<Vec<u8>> {
    match draft.admit(&[]) {
        Ok(_) => Some(Vec::new(alloc)),
        Err((draft, fault)) => lines_of(alloc, &draft, fault),
    }
}

fn text(alloc: Global, live: &str, workspaces: &str) -> Result<String, AllocError> {
    format!(in alloc; r#"{CODES}{live}],"workspaces":[{workspaces}]}}"#)
}

/// Rows of LIVE, workspaces, and what is said of the draft.
const DRAFTS: [(&str, &str, &str); 5] = [
    (
        r#"{"t":"code","k":1,"v":["A"],"s":[]}"#,
        r#"{"name":"W","parent":"LIVE","rows":[{"t":"code","k":2,"v":["A"],"s":[]}]}"#,
        "",
    ),
    (
        r#"{"t":"code","k":1,"v":["A"],"s":[]},{"t":"code","k":3,"v":["B"],"s":[]},{"t":"code","k":2,"v":["A"],"s":[]}"#,
        r#"{"name":"K","parent":"LIVE","kept":true,"rows":[{"t":"code","k":4,"v":["B"],"s":[]}]}"#,
        "LIVE rule 0 code/1 code/2\nrows 3\ncode,1,A\ncode,2,A\ncode,3,B\n",
    ),
    (
        r#"{"t":"code","k":1,"v":["A"],"s":[]},{"t":"code","k":2,"v":["A"],"s":[]}"#,
        r#"{"name":"K","parent":"LIVE","kept":true,"rows":[{"t":"code","k":1,"gone":true}]}"#,
        "LIVE rule 0 code/1 code/2\nrows 2\ncode,1,A\ncode,2,A\n",
    ),
    (
        r#"{"t":"code","k":1,"v":["A"],"s":[]}"#,
        r#"{"name":"W","parent":"LIVE","rows":[{"t":"code","k":5,"v":["A"],"s":[]}],"marks":[{"child":"K"}]},
{"name":"K","parent":"W","kept":true},{"name":"L","parent":"LIVE","kept":true,"base":[{"t":"code","k":2,"v":["A"],"s":[]}]}"#,
        "K rule 0 code/1 code/5\nrows 1\ncode,1,A\n",
    ),
    (
        r#"{"t":"code","k":1,"v":["A"],"s":[]}"#,
        r#"{"name":"K","parent":"LIVE","kept":true},
{"name":"L","parent":"LIVE","kept":true,"base":[{"t":"code","k":2,"v":["A"],"s":[]},{"t":"code","k":3,"v":["A"],"s":[]}]}"#,
        "L rule 0 code/1 code/2\nrows 1\ncode,1,A\n",
    ),
];

/// Returns what is said of the draft of a text.
fn lines_over(alloc: Global, live: &str, workspaces: &str) -> Option<Vec<u8>> {
    let text = text(alloc, live, workspaces).ok()?;
    fault_lines(alloc, read_office(alloc, text.as_bytes()).ok()?.draft)
}

/// Returns whether this is said of the draft of a text.
fn is_said(alloc: Global, (live, workspaces, lines): (&str, &str, &str)) -> bool {
    match lines_over(alloc, live, workspaces) {
        Some(found) => found.as_slice() == lines.as_bytes(),
        None => false,
    }
}

#[test]
fn drafts_that_are_given_back(rt: HostRuntime) {
    for draft in DRAFTS {
        assert!(rt; is_said(rt.alloc(), draft), "{}", draft.1);
    }
}
