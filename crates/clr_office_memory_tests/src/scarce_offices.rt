//! Office texts that are read and written while memory is wanting, of offices with old errors: at every budget of bytes a call is answered
//! rightly or with want of memory.

use crate::answers::STEP;
use clr_call_test_kit::{Hoard, Scarce, first_wrong_while_scarce, is_last};
use clr_lines::audit_lines;
use clr_office_test_kit::{network, office_of};
use clr_office_texts::{DraftText, read_office, write_draft, write_office};
use std::alloc::{AllocError, Global};
use std::test::Fail;

/// A network that is read.
struct Read;

/// A network whose office is written.
struct Written;

/// A network whose draft is written.
struct DraftWritten;

/// Returns the lines of the needs that a text names as known.
fn known_lines(alloc: Global, read: &DraftText) -> Option<Vec<u8>> {
    audit_lines(alloc, read.draft.schema(), read.known.as_slice()).ok()
}

/// Returns a text, with a line end behind each object.
fn in_lines(alloc: Global, text: &[u8]) -> Option<Vec<u8>> {
    let mut lines = Vec::new(alloc);
    for byte in text {
        lines.push(*byte).ok()?;
        if *byte == b'}' {
            lines.push(b'\n').ok()?;
        }
    }
    Some(lines)
}

/// Returns the lines of a text, or that no memory was found.
fn lines_of(alloc: Global, written: Result<Vec<u8>, AllocError>) -> Option<Vec<u8>> {
    match written {
        Ok(text) => in_lines(alloc, text.as_slice()),
        Err(_) => Vec::from_slice(alloc, b"out of memory\n").ok(),
    }
}

impl Scarce for Read {
    fn is_right_within(
        &self,
        alloc: Global,
        hoard: &mut Hoard,
        budget: usize,
        setting: &str,
        rest: &str,
    ) -> Option<bool> {
        let text = network(setting.trim_end())?;
        hoard.leave(budget).ok()?;
        let read = read_office(alloc, text.as_bytes());
        hoard.give_back();
        let lines = match read {
            Ok(read) => known_lines(alloc, &read)?,
            Err(fault) => {
                let line = format!(in alloc; "{fault:?}\n").ok()?;
                Vec::from_slice(alloc, line.as_bytes()).ok()?
            }
        };
        is_last(rest, lines.as_slice())
    }
}

impl Scarce for Written {
    fn is_right_within(
        &self,
        alloc: Global,
        hoard: &mut Hoard,
        budget: usize,
        setting: &str,
        rest: &str,
    ) -> Option<bool> {
        let office = office_of(alloc, network(setting.trim_end())?)?;
        hoard.leave(budget).ok()?;
        let written = write_office(alloc, &office);
        hoard.give_back();
        is_last(rest, lines_of(alloc, written)?.as_slice())
    }
}

impl Scarce for DraftWritten {
    fn is_right_within(
        &self,
        alloc: Global,
        hoard: &mut Hoard,
        budget: usize,
        setting: &str,
        rest: &str,
    ) -> Option<bool> {
        let text = network(setting.trim_end())?;
        let draft = read_office(alloc, text.as_bytes()).ok()?.draft;
        hoard.leave(budget).ok()?;
        let written = write_draft(alloc, draft);
        hoard.give_back();
        is_last(rest, lines_of(alloc, written)?.as_slice())
    }
}

/// Networks, and the needs that their texts name as known.
const READ: &str = "old errors
----
OutOfMemory
--
broken 2
rule 0 code/1 code/2
rule 0 code/2 code/4
--
====
";

/// Networks, and their texts as they are written, with a line end behind each object.
const WRITTEN: &str = r#"old errors
----
out of memory
--
{"format":4,"live":[{"k":1,"s":[],"t":"code","v":["A"]}
,{"k":2,"s":[],"t":"code","v":["A"]}
],"rules":[{"columns":["code"],"kind":"UNIQUE","known":[[1,2],[2,4]],"subject":{"table":"code","where":[]}
}
],"tables":[{"columns":[["code","TEXT"]],"name":"code","shape":"NONE"}
],"workspaces":[{"base":[],"kept":true,"marks":[],"name":"W1","parent":"LIVE","rows":[{"k":2,"s":[],"t":"code","v":["B"]}
,{"k":4,"s":[],"t":"code","v":["B"]}
]}
]}
--
====
one code
----
out of memory
--
{"format":3,"live":[{"k":1,"s":[],"t":"code","v":["A"]}
],"rules":[{"columns":["code"],"kind":"UNIQUE","subject":{"table":"code","where":[]}
}
],"tables":[{"columns":[["code","TEXT"]],"name":"code","shape":"NONE"}
],"workspaces":[]}
--
====
"#;

#[test]
fn offices_that_are_read(rt: HostRuntime) -> Result<(), Fail> {
    let wrong = first_wrong_while_scarce(rt.alloc(), &Read, STEP, READ)?;
    assert_eq!(rt; wrong, None);
    Ok(())
}

#[test]
fn offices_that_are_written(rt: HostRuntime) -> Result<(), Fail> {
    let wrong = first_wrong_while_scarce(rt.alloc(), &Written, STEP, WRITTEN)?;
    assert_eq!(rt; wrong, None);
    Ok(())
}

#[test]
fn drafts_that_are_written(rt: HostRuntime) -> Result<(), Fail> {
    let wrong = first_wrong_while_scarce(rt.alloc(), &DraftWritten, STEP, WRITTEN)?;
    assert_eq!(rt; wrong, None);
    Ok(())
}
