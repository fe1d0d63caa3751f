//! The least need that the changes of one member break.

use crate::merge_sets::first_broken;
use crate::networks::{CROSSING, MAINS, PATHS, TWO_NODES, network};
use clr_call_test_kit::{Hoard, Memory};
use clr_engine::Office;
use clr_lines::add_need;
use std::alloc::{AllocError, Global};
use std::process::Abort;
use std::test::Fail;

/// Returns the least need that the changes of a child of LIVE break, as it stands in a reply, or nothing.
pub(crate) fn broken_line(
    alloc: Global,
    office: &Office,
    member: &str,
    memory: &mut Memory,
) -> Result<Vec<u8>, Fail> {
    let mut line = Vec::new(alloc);
    if let Some(need) = first_broken(alloc, office, "LIVE", member, memory)? {
        add_need(&mut line, office.schema(), &need)?;
    }
    Ok(line)
}

/// Returns the least need that changes over the crossing and more rows break, as it stands in a reply, or nothing.
fn line_of_changes(
    alloc: Global,
    rules: &str,
    more: &str,
    changes: &str,
    memory: &mut Memory,
) -> Result<Vec<u8>, Fail> {
    let live = format!(in alloc; "{CROSSING}{more}")?;
    let office = network(alloc, rules, live.as_str(), &[changes])?;
    broken_line(alloc, &office, "W1", memory)
}

/// Tables and rules, rows of LIVE beside the crossing, what a member changes, and the need.
const MERGES: [(&str, &str, &str, &str); 9] = [
    (
        MAINS,
        "",
        r#"{"t":"node","k":9,"gone":true}"#,
        "rule 1 main/1 main/2",
    ),
    (
        MAINS,
        "",
        r#"{"t":"node","k":9,"gone":true},{"t":"node","k":10,"v":["valve"],"s":[5,5]}"#,
        "",
    ),
    (MAINS, "", r#"{"t":"main","k":1,"gone":true}"#, ""),
    (
        MAINS,
        "",
        r#"{"t":"main","k":30,"v":["A"],"s":[300,0,300,10]}"#,
        "rule 0 main/1 main/30",
    ),
    (
        MAINS,
        "",
        r#"{"t":"main","k":20,"v":["D"],"s":[100,0,101,1]},{"t":"main","k":21,"v":["E"],"s":[100,1,101,0]}"#,
        "rule 1 main/20 main/21",
    ),
    (
        MAINS,
        "",
        r#"{"t":"node","k":20,"v":["tee"],"s":[5,-50]},{"t":"main","k":20,"v":["D"],"s":[0,-50,6,-50]},{"t":"main","k":21,"v":["E"],"s":[4,-50,9,-50]}"#,
        "rule 1 main/20 main/21",
    ),
    (
        MAINS,
        "",
        r#"{"t":"hydrant","k":6,"v":[7],"s":[50,5]}"#,
        "rule 2 hydrant/6",
    ),
    (
        PATHS,
        TWO_NODES,
        r#"{"t":"node","k":31,"gone":true}"#,
        "rule 1 main/20/3 main/21",
    ),
    (
        PATHS,
        TWO_NODES,
        r#"{"t":"node","k":31,"gone":true},{"t":"node","k":32,"v":["tee"],"s":[105,10]}"#,
        "",
    ),
];

/// Asserts which needs are broken, by calls that have this memory.
fn assert_needs(rt: &impl Abort, alloc: Global, memory: &mut Memory) -> Result<(), Fail> {
    for (rules, more, changes, need) in MERGES {
        let found = line_of_changes(alloc, rules, more, changes, memory)?;
        assert!(rt; found.as_slice() == need.as_bytes(), "{changes}");
    }
    Ok(())
}

#[test]
fn least_needs_that_changes_break(rt: HostRuntime) -> Result<(), Fail> {
    assert_needs(&rt, rt.alloc(), &mut Memory::All)
}

#[test]
fn least_needs_once_there_is_memory(rt: HostRuntime) -> Result<(), Fail> {
    let mut memory = Memory::Hoarded(Hoard::take(rt.alloc())?);
    assert_needs(&rt, rt.alloc(), &mut memory)
}
