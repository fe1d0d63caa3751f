//! Offices of texts: nodes, mains and hydrants, and what members change there.

use clr_engine::Office;
use clr_office_texts::read_office;
use std::alloc::{AllocError, Global};
use std::test::Fail;

/// Tables and rules, up to the rows of LIVE. No code stands twice, mains cross at nodes alone, and the
/// number of a hydrant is the key of a main.
pub(crate) const MAINS: &str = r#"{"format":3,"tables":[
{"name":"node","columns":[["kind","TEXT"]],"shape":"POINT"},
{"name":"main","columns":[["code","TEXT"]],"shape":"SEGMENT"},
{"name":"hydrant","columns":[["main","INT"]],"shape":"POINT"}],
"rules":[{"kind":"UNIQUE","subject":{"table":"main"},"columns":["code"]},
{"kind":"CROSSING","a":{"table":"main"},"b":{"table":"main"},"server":{"table":"node"}},
{"kind":"PARTNER","subject":{"table":"hydrant"},"columns":["main"],"server":{"table":"main"},"server_columns":["KEY"]}],
"live":["#;

/// The network with paths as its mains.
pub(crate) const PATHS: &str = r#"{"format":3,"tables":[
{"name":"node","columns":[["kind","TEXT"]],"shape":"POINT"},
{"name":"main","columns":[["code","TEXT"]],"shape":"PATH"},
{"name":"hydrant","columns":[["main","INT"]],"shape":"POINT"}],
"rules":[{"kind":"UNIQUE","subject":{"table":"main"},"columns":["code"]},
{"kind":"CROSSING","a":{"table":"main"},"b":{"table":"main"},"server":{"table":"node"}},
{"kind":"PARTNER","subject":{"table":"hydrant"},"columns":["main"],"server":{"table":"main"},"server_columns":["KEY"]}],
"live":["#;

/// Two mains that cross at node 9.
pub(crate) const CROSSING: &str = r#"{"t":"node","k":9,"v":["valve"],"s":[5,5]},
{"t":"main","k":1,"v":["A"],"s":[0,0,10,10]},
{"t":"main","k":2,"v":["C"],"s":[0,10,10,0]}"#;

/// Two more nodes there.
pub(crate) const TWO_MORE_NODES: &str = r#",
{"t":"node","k":10,"v":["valve"],"s":[5,5]},
{"t":"node","k":11,"v":["valve"],"s":[5,5]}"#;

/// Two mains far from there.
pub(crate) const TWO_MORE_MAINS: &str = r#",
{"t":"main","k":20,"v":["D"],"s":[100,0,100,10]},
{"t":"main","k":21,"v":["E"],"s":[200,0,200,10]}"#;

/// A main far from there with a hydrant.
pub(crate) const ONE_HYDRANT: &str = r#",
{"t":"main","k":5,"v":["E"],"s":[50,0,50,10]},
{"t":"hydrant","k":6,"v":[5],"s":[50,5]}"#;

/// Two mains more as paths, of which main 21 crosses main 20 at two nodes.
pub(crate) const TWO_NODES: &str = r#",
{"t":"node","k":30,"v":["tee"],"s":[105,0]},
{"t":"node","k":31,"v":["tee"],"s":[105,10]},
{"t":"main","k":20,"v":["D"],"s":[100,0,110,0,110,10,100,10]},
{"t":"main","k":21,"v":["E"],"s":[105,-5,105,15]}"#;

/// The members, by position.
const MEMBERS: [&str; 3] = ["W1", "W2", "W3"];

/// Returns the first members, at most three.
pub(crate) fn members(count: usize) -> &'static [&'static str] {
    if count < MEMBERS.len() {
        &MEMBERS[..count]
    } else {
        &MEMBERS
    }
}

/// Returns children of LIVE, named by their numbers from 1, with the rows that each changes.
fn children(alloc: Global, changes: &[&str]) -> Result<String, AllocError> {
    let mut list = String::new(alloc);
    for (n, rows) in changes.iter().enumerate() {
        if n > 0 {
            list.push_str(",")?;
        }
        let number = n.saturating_add(1);
        let child = format!(in alloc; r#"{{"name":"W{number}","parent":"LIVE","rows":[{rows}]}}"#)?;
        list.push_str(child.as_str())?;
    }
    Ok(list)
}

/// Returns the office of a text, in which each broken need is known.
pub(crate) fn office_of(alloc: Global, text: &str) -> Result<Office, Fail> {
    let read = read_office(alloc, text.as_bytes())?;
    let admitted = read.draft.admit(read.known.as_slice());
    Ok(admitted.ok().ok_or("a need is broken that isn't known")?)
}

/// Returns the office of tables, rules and rows of LIVE, with what members change.
pub(crate) fn network(
    alloc: Global,
    rules: &str,
    live: &str,
    changes: &[&str],
) -> Result<Office, Fail> {
    let children = children(alloc, changes)?;
    let text = format!(in alloc; r#"{rules}{live}],"workspaces":[{children}]}}"#)?;
    office_of(alloc, text.as_str())
}
