//! Offices with old errors: which drafts are admitted beside known needs, what commands do there, and which needs are broken.

use clr_engine::{AdmitFault, Broken, Draft, Office};
use clr_lines::{audit_lines, unheld_line};
use clr_office_test_kit::replies_to;
use clr_office_texts::read_office;
use clr_rows::CellId;
use clr_rules::Ask;
use std::alloc::Global;

/// A table of codes of which no two may be the same. In LIVE codes 1 and 2 are, in W codes 3 and 5 too, and in the kept
/// K codes 3 and 4 too.
const CODES: &str = r#"{"format":3,"tables":[
{"name":"code","columns":[["code","TEXT"]],"shape":"NONE"}],
"rules":[{"kind":"UNIQUE","subject":{"table":"code"},"columns":["code"]}],
"live":[{"t":"code","k":1,"v":["A"],"s":[]},{"t":"code","k":2,"v":["A"],"s":[]},{"t":"code","k":3,"v":["B"],"s":[]}],
"workspaces":[{"name":"W","parent":"LIVE","rows":[{"t":"code","k":5,"v":["B"],"s":[]}]},
{"name":"K","parent":"LIVE","kept":true,"rows":[{"t":"code","k":4,"v":["B"],"s":[]}]}]}"#;

/// Codes that are known to be the same, and the line of what is broken beside them.
const KNOWN: [(&[(i64, i64)], &str); 8] = [
    (&[], "unheld rule 0 code/1 code/2\n"),
    (&[(1, 2)], "unheld K rule 0 code/3 code/4\n"),
    (&[(3, 4)], "unheld rule 0 code/1 code/2\n"),
    (&[(1, 3), (3, 4)], "unheld rule 0 code/1 code/2\n"),
    (&[(1, 2), (3, 5)], "unheld K rule 0 code/3 code/4\n"),
    (&[(1, 2), (3, 4)], ""),
    (&[(3, 4), (1, 2)], ""),
    (&[(8, 9), (3, 4), (1, 2), (1, 3), (3, 4)], ""),
];

/// Commands one after another, what they are answered, and which needs are broken afterwards.
const STEPS: [(&str, &str, &str); 7] = [
    (
        "create,W1,LIVE\napply,W1,1\ninsert,code,9,C\nmerge,W1,remove\n",
        "done\ndone\ndone\n",
        "broken 2\nrule 0 code/1 code/2\nrule 0 code/3 code/4\n",
    ),
    (
        "create,W2,LIVE\napply,W2,1\nupdate,code,2,D\nmerge,W2,remove\n",
        "done\ndone\ndone\n",
        "broken 2\nrule 0 code/1 code/2\nrule 0 code/3 code/4\n",
    ),
    (
        "refresh,K\nmerge,K,keep\n",
        "refused 12 RuleBroken rule 0 code/3 code/4\nrefused 12 RuleBroken rule 0 code/3 code/4\n",
        "broken 2\nrule 0 code/1 code/2\nrule 0 code/3 code/4\n",
    ),
    (
        "apply,K,1\nupdate,code,2,E\n",
        "done\n",
        "broken 1\nrule 0 code/3 code/4\n",
    ),
    (
        "apply,LIVE,1\nupdate,code,2,A\napply,K,1\nupdate,code,2,A\n",
        "refused 12 RuleBroken rule 0 code/1 code/2\nrefused 12 RuleBroken rule 0 code/1 code/2\n",
        "broken 1\nrule 0 code/3 code/4\n",
    ),
    ("apply,K,1\ndelete,code,4\n", "done\n", "broken 0\n"),
    (
        "apply,K,1\ninsert,code,4,B\n",
        "refused 12 RuleBroken rule 0 code/3 code/4\n",
        "broken 0\n",
    ),
];

/// Returns the needs of codes that may not be the same.
fn needs_of(alloc: Global, pairs: &[(i64, i64)]) -> Option<Vec<Broken>> {
    let mut needs = Vec::new(alloc);
    for (first, second) in pairs {
        let second = CellId {
            table: 0,
            key: *second,
        };
        let first = CellId {
            table: 0,
            key: *first,
        };
        needs
            .push(Broken::new(Ask::plain(0), first, Some(second)))
            .ok()?;
    }
    Some(needs)
}

/// Returns the line of what is broken in a draft; no bytes where it is none.
fn line_of(alloc: Global, draft: &Draft, unheld: Option<(usize, Broken)>) -> Option<Vec<u8>> {
    match unheld {
        None => Some(Vec::new(alloc)),
        Some((0, need)) => unheld_line(alloc, draft.schema(), None, &need).ok(),
        Some((position, need)) => {
            unheld_line(alloc, draft.schema(), draft.name_at(position), &need).ok()
        }
    }
}

/// Returns the line for which a draft isn't admitted; no bytes where it is admitted.
fn line_of_admission(alloc: Global, draft: Draft, known: &[Broken]) -> Option<Vec<u8>> {
    match draft.admit(known) {
        Ok(_) => Some(Vec::new(alloc)),
        Err((draft, fault)) => match fault {
            AdmitFault::Broken { position, need } => {
                line_of(alloc, &draft, Some((position, need)))
            }
            AdmitFault::OutOfMemory => None,
        },
    }
}

/// Returns whether this is the line of what is broken beside known needs, and for which a draft isn't admitted.
fn is_line(alloc: Global, pairs: &[(i64, i64)], line: &str) -> Option<bool> {
    let known = needs_of(alloc, pairs)?;
    let draft = read_office(alloc, CODES.as_bytes()).ok()?.draft;
    let unheld = draft.unheld(known.as_slice()).ok()?;
    let told = line_of(alloc, &draft, unheld)?;
    let refused = line_of_admission(alloc, draft, known.as_slice())?;
    Some(told.as_slice() == line.as_bytes() && refused.as_slice() == line.as_bytes())
}

#[test]
fn drafts_beside_known_needs(rt: HostRuntime) {
    for (pairs, line) in KNOWN {
        assert!(rt; is_line(rt.alloc(), pairs, line) == Some(true), "{}", line);
    }
}

/// Returns the office of the codes, whose broken needs are known.
fn office(alloc: Global) -> Option<Office> {
    let known = needs_of(alloc, &[(1, 2), (3, 4)])?;
    let draft = read_office(alloc, CODES.as_bytes()).ok()?.draft;
    draft.admit(known.as_slice()).ok()
}

/// Returns whether commands are answered so, and these needs are broken afterwards.
fn is_answered(
    alloc: Global,
    office: &mut Office,
    (script, replies, broken): (&str, &str, &str),
) -> Option<bool> {
    let found = replies_to(alloc, office, script)?;
    let needs = office.broken_needs().ok()?;
    let lines = audit_lines(alloc, office.schema(), needs.as_slice()).ok()?;
    Some(found.as_slice() == replies.as_bytes() && lines.as_slice() == broken.as_bytes())
}

#[test]
fn steps_beside_old_errors(rt: HostRuntime) {
    let Some(mut office) = office(rt.alloc()) else {
        panic!(rt; "the office isn't admitted");
    };
    for step in STEPS {
        assert!(rt;
            is_answered(rt.alloc(), &mut office, step) == Some(true),
            "{}",
            step.0
        );
    }
}

/// Returns the lines of the broken needs of a draft.
fn broken_lines(alloc: Global, text: &str) -> Option<Vec<u8>> {
    let draft = read_office(alloc, text.as_bytes()).ok()?.draft;
    let needs = draft.broken_needs().ok()?;
    audit_lines(alloc, draft.schema(), needs.as_slice()).ok()
}

#[test]
fn broken_needs_of_a_draft(rt: HostRuntime) {
    let found = broken_lines(rt.alloc(), CODES);
    let lines = "broken 2\nrule 0 code/1 code/2\nrule 0 code/3 code/4\n";
    assert!(rt;
        found.is_some_and(|found| found.as_slice() == lines.as_bytes()),
        "{}",
        lines
    );
}
