//! Runs of a script with a budget of memory.

use clr_call_test_kit::Hoard;
use clr_office::{Disposal, Page, RunFault, Text, run_office};
use std::alloc::Global;
use std::process::Abort;
use std::test::Fail;

/// An office with one valve in LIVE, and the separator.
const OFFICE: &str = r#"{"format":1,
"tables":[{"name":"node","columns":[["kind","TEXT"]],"shape":"POINT"}],
"live":[{"t":"node","k":9,"v":["valve"],"s":[5,5]}]}
---
"#;

const SCRIPT: &str =
    "create,W1,LIVE\napply,W1,2\ninsert,node,10,tee,7,7\nupdate,node,9,tap,5,5\nmerge,W1,keep\nshow,LIVE\n";

const LINES: &str = "done\ndone\ndone\nrows 2\nnode,9,tap,5,5\nnode,10,tee,7,7\n";

/// What the script prints where some of its commands find no memory.
const LINES_WITH_LOST: [&str; 4] = [
    "refused 0 OutOfMemory\nrefused 1 NoWorkspace\nrefused 1 NoWorkspace\nrows 1\nnode,9,valve,5,5\n",
    "done\nrefused 0 OutOfMemory\ndone\nrows 1\nnode,9,valve,5,5\n",
    "done\nrefused 0 OutOfMemory\nrefused 0 OutOfMemory\nrows 1\nnode,9,valve,5,5\n",
    "done\ndone\nrefused 0 OutOfMemory\nrows 1\nnode,9,valve,5,5\n",
];

/// Budgets end here, in bytes: beyond this `malloc` takes room from another place than its heap.
const MOST: usize = 122_880;

/// Room for the lines of each run, in bytes.
const ROOM: usize = 65_536;

/// How a run ends while memory is wanting.
#[derive(Clone, Copy, Debug, PartialEq, Eq)]
enum End {
    /// The run fails, with nothing written.
    Fault,
    /// A command is answered want of memory.
    Lost,
    /// The run meets no refusal.
    Done,
}

/// Runs an input with this many bytes of memory. The lines are those given, or those of a run in
/// which a command is lost, or none.
fn end_within(
    rt: &impl Abort,
    alloc: Global,
    hoard: &mut Hoard,
    budget: usize,
    (input, lines): (&str, &str),
) -> Result<End, Fail> {
    let mut page = Page::new(alloc, ROOM)?;
    hoard.leave(budget)?;
    let status = run_office(
        alloc,
        Disposal::Drop,
        &mut Text::new(input.as_bytes()),
        &mut page,
    );
    hoard.give_back();
    let written = page.as_slice();
    match status {
        Ok(0) => {
            assert_eq!(rt; written, lines.as_bytes(), "within {budget} bytes");
            Ok(End::Done)
        }
        Ok(3) => {
            let known = LINES_WITH_LOST
                .iter()
                .any(|lost| lost.as_bytes() == written);
            assert!(rt; known, "lines of lost commands within {budget} bytes");
            Ok(End::Lost)
        }
        _ => {
            assert_eq!(rt; status, Err(RunFault::OutOfMemory), "within {budget} bytes");
            assert_eq!(rt;
                written.len(),
                0,
                "nothing is written within {budget} bytes"
            );
            Ok(End::Fault)
        }
    }
}

#[test]
fn a_run_prints_nothing_or_all(rt: HostRuntime) -> Result<(), Fail> {
    let alloc = rt.alloc();
    let input = format!(in alloc; "{OFFICE}{SCRIPT}")?;
    let mut hoard = Hoard::take(alloc)?;
    let mut refused = 0;
    let mut end = End::Fault;
    for budget in (0..MOST).step_by(16) {
        end = end_within(&rt, alloc, &mut hoard, budget, (input.as_str(), LINES))?;
        if end == End::Done {
            break;
        }
        refused = budget / 16 + 1;
    }
    eprintln!(rt;
        "run: {refused} refusals, {} blocks of address space",
        hoard.len()
    )?;
    assert_eq!(rt; end, End::Done);
    assert!(rt; refused > 0);
    Ok(())
}
