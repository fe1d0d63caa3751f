//! What is said of scenes over two mains that cross.

use crate::networks::{
    CROSSING, MAINS, ONE_HYDRANT, PATHS, TWO_MORE_NODES, TWO_NODES, members, network, office_of,
};
use crate::merge_sets::{SceneOver, assert_said, merge_set_lines};
use clr_call_test_kit::{Hoard, Memory};
use std::alloc::Global;
use std::test::Fail;

/// What serves no need: codes that are given up and taken.
const CODES: [SceneOver; 5] = [
    (
        r#""#,
        &[
            r#"{"t":"main","k":20,"v":["D"],"s":[100,0,100,10]}"#,
            r#"{"t":"main","k":21,"v":["E"],"s":[200,0,200,10]}"#,
        ],
        r#"independent yes
"#,
    ),
    (
        r#""#,
        &[],
        r#"independent
"#,
    ),
    (
        r#""#,
        &[
            r#"{"t":"main","k":1,"v":["B"],"s":[0,0,10,10]}"#,
            r#"{"t":"main","k":30,"v":["A"],"s":[300,0,300,10]}"#,
        ],
        r#"rule 0 parts 1 1 main/1/old-0 main/30/new+1 served picked blocked 1
rule 1 parts 1 1 main/1/new+0 main/2/old served node/9/old picked node/9/old blocked 0
clash 1 rule 0 parts 1 1 main/1/old-0 main/30/new+1
independent no
"#,
    ),
    (
        r#""#,
        &[
            r#"{"t":"main","k":40,"v":["D"],"s":[5,0,5,2]},
{"t":"main","k":41,"v":["C"],"s":[2,4,2,6]}"#,
        ],
        r#"rule 0 parts 1 1 main/2/old main/41/new+0 served picked blocked 0
clash 0 rule 0 parts 1 1 main/2/old main/41/new+0
independent
"#,
    ),
    (
        r#""#,
        &[r#"{"t":"main","k":1,"v":["W"],"s":[0,0,10,10]}"#],
        r#"rule 1 parts 1 1 main/1/new+0 main/2/old served node/9/old picked node/9/old blocked 0
independent
"#,
    ),
];

#[test]
fn codes(rt: HostRuntime) -> Result<(), Fail> {
    assert_said(&rt, rt.alloc(), (MAINS, CROSSING), &CODES, &mut Memory::All)
}

/// Nodes of a crossing, taken away and put in their place.
const NODES: [SceneOver; 6] = [
    (
        r#""#,
        &[r#"{"t":"node","k":9,"gone":true}"#],
        r#"rule 1 parts 1 1 main/1/old main/2/old served node/9/old-0 picked blocked 0
clash 0 rule 1 parts 1 1 main/1/old main/2/old
independent
"#,
    ),
    (
        r#""#,
        &[
            r#"{"t":"node","k":9,"gone":true},
{"t":"node","k":10,"v":["valve"],"s":[5,5]}"#,
        ],
        r#"rule 1 parts 1 1 main/1/old main/2/old served node/9/old-0 node/10/new+0 picked node/9/old-0 node/10/new+0 blocked 0
independent
"#,
    ),
    (
        TWO_MORE_NODES,
        &[
            r#"{"t":"node","k":9,"gone":true}"#,
            r#"{"t":"node","k":10,"gone":true}"#,
        ],
        r#"rule 1 parts 1 1 main/1/old main/2/old served node/9/old-0 node/10/old-1 node/11/old picked node/11/old blocked 0 1
independent no
"#,
    ),
    (
        TWO_MORE_NODES,
        &[
            r#"{"t":"node","k":9,"gone":true}"#,
            r#"{"t":"node","k":11,"gone":true}"#,
        ],
        r#"rule 1 parts 1 1 main/1/old main/2/old served node/9/old-0 node/10/old node/11/old-1 picked node/10/old blocked 0 1
independent no
"#,
    ),
    (
        TWO_MORE_NODES,
        &[
            r#"{"t":"node","k":10,"gone":true}"#,
            r#"{"t":"node","k":11,"gone":true}"#,
        ],
        r#"rule 1 parts 1 1 main/1/old main/2/old served node/9/old node/10/old-0 node/11/old-1 picked node/9/old blocked 0 1
independent no
"#,
    ),
    (
        TWO_MORE_NODES,
        &[
            r#"{"t":"node","k":9,"gone":true}"#,
            r#"{"t":"node","k":10,"gone":true}"#,
            r#"{"t":"node","k":11,"gone":true}"#,
        ],
        r#"rule 1 parts 1 1 main/1/old main/2/old served node/9/old-0 node/10/old-1 node/11/old-2 picked blocked 0 1 2
clash 0 1 2 rule 1 parts 1 1 main/1/old main/2/old
independent no no no
"#,
    ),
];

#[test]
fn nodes(rt: HostRuntime) -> Result<(), Fail> {
    assert_said(&rt, rt.alloc(), (MAINS, CROSSING), &NODES, &mut Memory::All)
}

#[test]
fn nodes_once_there_is_memory(rt: HostRuntime) -> Result<(), Fail> {
    let mut memory = Memory::Hoarded(Hoard::take(rt.alloc())?);
    assert_said(&rt, rt.alloc(), (MAINS, CROSSING), &NODES, &mut memory)
}

/// Mains that go or come, and hydrants that name them.
const MAINS_GONE: [SceneOver; 4] = [
    (
        ONE_HYDRANT,
        &[
            r#"{"t":"main","k":5,"gone":true},
{"t":"hydrant","k":6,"gone":true}"#,
        ],
        r#"rule 2 parts 1 1 hydrant/6/old-0 served main/5/old-0 picked main/5/old-0 blocked 0
independent
"#,
    ),
    (
        ONE_HYDRANT,
        &[
            r#"{"t":"main","k":5,"gone":true}"#,
            r#"{"t":"hydrant","k":6,"gone":true}"#,
        ],
        r#"rule 2 parts 1 1 hydrant/6/old-1 served main/5/old-0 picked blocked 0
clash 0 rule 2 parts 1 1 hydrant/6/old-1
independent no
"#,
    ),
    (
        r#""#,
        &[
            r#"{"t":"main","k":1,"gone":true}"#,
            r#"{"t":"main","k":2,"gone":true}"#,
        ],
        r#"independent no
"#,
    ),
    (
        r#""#,
        &[
            r#"{"t":"main","k":20,"v":["D"],"s":[100,0,100,10]}"#,
            r#"{"t":"main","k":21,"v":["E"],"s":[200,0,200,10]}"#,
            r#"{"t":"main","k":22,"v":["F"],"s":[150,5,250,5]}"#,
        ],
        r#"rule 1 parts 1 1 main/21/new+1 main/22/new+2 served picked blocked 1 2
clash 1 2 rule 1 parts 1 1 main/21/new+1 main/22/new+2
independent yes yes no
"#,
    ),
];

#[test]
fn mains_and_hydrants(rt: HostRuntime) -> Result<(), Fail> {
    assert_said(
        &rt,
        rt.alloc(),
        (MAINS, CROSSING),
        &MAINS_GONE,
        &mut Memory::All,
    )
}

/// Main 20 is a path whose first and third part are crossed by main 21.
const PATHS_CROSSING: [SceneOver; 2] = [
    (
        TWO_NODES,
        &[r#"{"t":"node","k":31,"gone":true}"#],
        r#"rule 1 parts 3 1 main/20/old main/21/old served node/31/old-0 picked blocked 0
clash 0 rule 1 parts 3 1 main/20/old main/21/old
independent
"#,
    ),
    (
        TWO_NODES,
        &[
            r#"{"t":"node","k":31,"gone":true},
{"t":"node","k":32,"v":["tee"],"s":[105,10]}"#,
        ],
        r#"rule 1 parts 3 1 main/20/old main/21/old served node/31/old-0 node/32/new+0 picked node/31/old-0 node/32/new+0 blocked 0
independent
"#,
    ),
];

#[test]
fn paths(rt: HostRuntime) -> Result<(), Fail> {
    assert_said(
        &rt,
        rt.alloc(),
        (PATHS, CROSSING),
        &PATHS_CROSSING,
        &mut Memory::All,
    )
}

#[test]
fn paths_once_there_is_memory(rt: HostRuntime) -> Result<(), Fail> {
    let mut memory = Memory::Hoarded(Hoard::take(rt.alloc())?);
    assert_said(
        &rt,
        rt.alloc(),
        (PATHS, CROSSING),
        &PATHS_CROSSING,
        &mut memory,
    )
}

/// Returns what is said of three members that change these rows.
fn lines_of_three(alloc: Global, changes: &[&str]) -> Result<String, Fail> {
    let office = network(alloc, MAINS, CROSSING, changes)?;
    Ok(merge_set_lines(alloc, &office, "LIVE", members(3), &mut Memory::All)?)
}

#[test]
fn one_cell_changed_by_two(rt: HostRuntime) -> Result<(), Fail> {
    let main = r#"{"t":"main","k":20,"v":["D"],"s":[100,0,100,10]}"#;
    let found = lines_of_three(rt.alloc(), &[main, "", main])?;
    assert_eq!(rt; found.as_str(), "shared main/20 0 2\n");
    Ok(())
}

/// K, which is kept, and two children that change its rows.
const KEPT: &str =
    r#"{"name":"K","parent":"LIVE","kept":true,"marks":[{"child":"V1"},{"child":"V2"}]},
{"name":"V1","parent":"K","rows":[{"t":"node","k":9,"gone":true},
{"t":"node","k":10,"v":["valve"],"s":[5,5]}]},
{"name":"V2","parent":"K","rows":[{"t":"main","k":21,"v":["E"],"s":[200,0,200,10]},
{"t":"hydrant","k":1,"v":[1],"s":[7,7]}]}"#;

/// Returns what is said of the children of K in the office of a text.
fn lines_under_k(alloc: Global, text: &str) -> Result<String, Fail> {
    let office = office_of(alloc, text)?;
    Ok(merge_set_lines(alloc, &office, "K", &["V1", "V2"], &mut Memory::All)?)
}

#[test]
fn children_of_a_kept_workspace(rt: HostRuntime) -> Result<(), Fail> {
    let alloc = rt.alloc();
    let text = format!(in alloc; r#"{MAINS}{CROSSING}],"workspaces":[{KEPT}]}}"#)?;
    let found = lines_under_k(alloc, text.as_str())?;
    assert_eq!(rt;
        found.as_str(),
        r#"rule 1 parts 1 1 main/1/old main/2/old served node/9/old-0 node/10/new+0 picked node/9/old-0 node/10/new+0 blocked 0
rule 2 parts 1 1 hydrant/1/new+1 served main/1/old picked main/1/old blocked 1
"#
    );
    Ok(())
}
