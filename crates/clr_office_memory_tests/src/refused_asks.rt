//! What words ask of files, with a budget of memory.

use clr_call_test_kit::{Hoard, refusals};
use clr_office::{Disposal, Page, RunFault, answer, ask_of};
use std::alloc::Global;
use std::test::Fail;

/// Two mains that cross at a node, and two workspaces: W1 puts another node in its place, and W2
/// takes it away.
const CROSSING: &str = r#"{"format":1,"tables":[
{"name":"node","columns":[["kind","TEXT"]],"shape":"POINT"},
{"name":"main","columns":[["code","TEXT"]],"shape":"SEGMENT"}],
"rules":[{"kind":"CROSSING","a":{"table":"main"},"b":{"table":"main"},"server":{"table":"node"}}],
"live":[{"t":"node","k":9,"v":["valve"],"s":[5,5]},
{"t":"main","k":1,"v":["A"],"s":[0,0,10,10]},
{"t":"main","k":2,"v":["C"],"s":[0,10,10,0]}],
"workspaces":[{"name":"W1","parent":"LIVE","rows":[{"t":"node","k":9,"gone":true},
{"t":"node","k":10,"v":["valve"],"s":[5,5]}]},
{"name":"W2","parent":"LIVE","rows":[{"t":"node","k":9,"gone":true}]}]}"#;

/// A node, and W1, which lays another.
const ONE_NODE: &str =
    r#"{"format":1,"tables":[{"name":"node","columns":[["kind","TEXT"]],"shape":"POINT"}],
"live":[{"t":"node","k":9,"v":["valve"],"s":[5,5]}],
"workspaces":[{"name":"W1","parent":"LIVE","rows":[{"t":"node","k":10,"v":["tee"],"s":[7,7]}]}]}"#;

/// The lines of the merge of W1, with a line end within the office for each here.
const MERGED: &str = r#"done
{"format":3,"live":[{"k":9,"s":[5,5],"t":"node","v":["valve"]},{"k":10,"s":[7,7],"t":"node","v":["tee"]}],
"rules":[],"tables":[{"columns":[["kind","TEXT"]],"name":"node","shape":"POINT"}],
"workspaces":[{"base":[],"kept":false,"marks":[],"name":"W1","parent":"LIVE","rows":[]}]}
"#;

/// What is printed where the merge finds no memory.
const NOT_MERGED: &str = r#"refused 0 OutOfMemory
{"format":3,"live":[{"k":9,"s":[5,5],"t":"node","v":["valve"]}],
"rules":[],"tables":[{"columns":[["kind","TEXT"]],"name":"node","shape":"POINT"}],
"workspaces":[{"base":[],"kept":false,"marks":[],"name":"W1","parent":"LIVE",
"rows":[{"k":10,"s":[7,7],"t":"node","v":["tee"]}]}]}
"#;

/// The certificate of W1 over the crossing, and one that lacks the second witness.
const CERTIFICATE: &str = "member,W1,,,,\nneed,0,main/1/old,main/2/old,node/9/old,node/10/new\n";

const CUT: &str = "member,W1,,,,\nneed,0,main/1/old,main/2/old,node/9/old,\n";

/// The step from one budget to the next.
const STEP: usize = 64;

/// Room for what is printed, in bytes.
const ROOM: usize = 65_536;

/// The words of what is asked, the texts of the files, the exit status and the lines, and the lines
/// with which it may end where a plan, a verdict or a merge finds no memory.
#[derive(Clone, Copy)]
struct Case {
    words: &'static [&'static str],
    texts: (&'static str, &'static str),
    status: u8,
    lines: &'static str,
    lost: [&'static str; 2],
}

/// Bytes without their line ends.
fn in_one_line(alloc: Global, bytes: &[u8]) -> Option<Vec<u8>> {
    let mut line = Vec::new(alloc);
    for byte in bytes {
        if *byte != b'\n' {
            line.push(*byte).ok()?;
        }
    }
    Some(line)
}

/// Returns whether bytes are those of a text, line ends aside.
fn are_of_text(alloc: Global, bytes: &[u8], text: &str) -> Option<bool> {
    let line = in_one_line(alloc, bytes)?;
    let wanted = in_one_line(alloc, text.as_bytes())?;
    Some(line.as_slice() == wanted.as_slice())
}

/// Returns whether what is asked is answered rightly with this many bytes of memory; none where it is
/// answered neither so nor as it may be for want of memory.
fn is_answered_within(alloc: Global, hoard: &mut Hoard, budget: usize, case: Case) -> Option<bool> {
    let (ask, _) = ask_of(alloc, case.words).ok()?;
    let mut page = Page::new(alloc, ROOM).ok()?;
    let mut notes = Page::new(alloc, ROOM).ok()?;
    let (office, second) = case.texts;
    hoard.leave(budget).ok()?;
    let status = answer(
        alloc,
        Disposal::Drop,
        &ask,
        office.as_bytes(),
        second.as_bytes(),
        &mut page,
        &mut notes,
    );
    hoard.give_back();
    let written = page.as_slice();
    let is_known = match status {
        Err(fault) => fault == RunFault::OutOfMemory && written.is_empty(),
        Ok(3) => are_of_text(alloc, written, case.lost[0])?
            || are_of_text(alloc, written, case.lost[1])?,
        Ok(status) => status == case.status && are_of_text(alloc, written, case.lines)?,
    };
    if is_known {
        Some(status == Ok(case.status))
    } else {
        None
    }
}

const PLAN: Case = Case {
    words: &["clr_office", "plan", "db", "W1"],
    texts: (CROSSING, ""),
    status: 0,
    lines: "cleared 1\nmember,W1,,,,\nneed,0,main/1/old,main/2/old,node/9/old,node/10/new\n",
    lost: ["refused 0 OutOfMemory\n"; 2],
};

const CHECK: Case = Case {
    words: &["clr_office", "check", "db", "cert"],
    texts: (CROSSING, CERTIFICATE),
    status: 0,
    lines: "clear\n",
    lost: ["0 OutOfMemory\n"; 2],
};

const MERGE: Case = Case {
    words: &["clr_office", "merge", "db", "cert", "W1"],
    texts: (ONE_NODE, "member,W1,,,,\n"),
    status: 0,
    lines: MERGED,
    lost: ["0 OutOfMemory\n", NOT_MERGED],
};

#[test]
fn what_is_asked_is_answered_or_finds_no_memory(rt: HostRuntime) -> Result<(), Fail> {
    let mut hoard = Hoard::take(rt.alloc())?;
    let blocked = Case {
        words: &["clr_office", "plan", "db", "W1", "W2"],
        status: 1,
        lines: "blocked 2 W1 W2\ncause 5 SharedCell node/9 W1 W2\n",
        ..PLAN
    };
    let uncovered = Case {
        texts: (CROSSING, CUT),
        status: 1,
        lines: "6 Uncovered rule 0 main/1/old main/2/old\n",
        ..CHECK
    };
    for case in [PLAN, blocked, CHECK, uncovered, MERGE] {
        let refused = refusals(STEP, |budget| {
            is_answered_within(rt.alloc(), &mut hoard, budget, case)
        });
        assert!(rt; refused.unwrap_or(0) > 0, "{}", case.lines);
    }
    Ok(())
}
