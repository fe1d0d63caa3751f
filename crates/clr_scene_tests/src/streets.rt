//! Offices with rules of all five kinds, with paths and with mains and ducts that are wide, and what an
//! independent program says of what members change there. The offices were drawn at random.

use crate::merge_sets::{SceneOver, assert_said};
use crate::merges::broken_line;
use crate::networks::network;
use clr_call_test_kit::Memory;
use clr_engine::Office;
use std::alloc::Global;
use std::test::Fail;

/// Tables and rules. No code of a main stands twice, the number of a hydrant is the key of a main, a
/// duct begins at a node, mains and ducts cross at tees alone, and no hydrant is near a node.
pub(crate) const STREETS: &str = r#"{"format":3,"tables":[
{"name":"node","columns":[["kind","TEXT"]],"shape":"POINT"},
{"name":"main","columns":[["code","TEXT"]],"shape":"SEGMENT"},{"name":"duct","columns":[["size","INT"]],"shape":"PATH"},
{"name":"hydrant","columns":[["main","INT"]],"shape":"POINT"}],"rules":[{"kind":"UNIQUE","subject":{"table":"main"},"columns":["code"]},
{"kind":"PARTNER","subject":{"table":"hydrant"},"columns":["main"],"server":{"table":"main"},"server_columns":["KEY"]},
{"kind":"ENDNODE","subject":{"table":"duct"},"tip":"FIRST","server":{"table":"node"}},
{"kind":"CROSSING","a":{"table":"main"},"b":{"table":"duct"},"server":{"table":"node","where":[["kind","tee"]]}},
{"kind":"NEAR","a":{"table":"hydrant"},"b":{"table":"node"},"d":3}],"live":["#;

/// Rows of LIVE, what each member changes, and what is said of it.
pub(crate) const SCENES: [SceneOver; 8] = [
    (
        r#"{"k":1,"s":[6,4],"t":"node","v":["tee"]},{"k":2,"s":[8,8],"t":"node","v":["valve"]},{"k":7,"s":[0,8],"t":"node","v":["valve"]},
{"k":8,"s":[8,0],"t":"node","v":["tee"]},{"k":3,"s":[2,4,2,8],"t":"main","v":["C"]},{"k":8,"s":[4,0,8,4],"t":"main","v":["B"]},
{"k":1,"s":[1,0],"t":"hydrant","v":[3]},{"k":2,"s":[3,6],"t":"hydrant","v":[3]},{"k":5,"s":[5,8],"t":"hydrant","v":[3]}"#,
        &[
            r#"{"gone":true,"k":7,"t":"node"},{"gone":true,"k":1,"t":"hydrant"}"#,
            r#"{"k":3,"s":[0,2,4,8],"t":"main","v":["A"]},{"k":4,"s":[-1000000000,7,1000000000,8],"t":"main","v":["A"]},
{"k":7,"s":[4,4,8,2,2,4],"t":"duct","v":[3]}"#,
            r#"{"gone":true,"k":2,"t":"node"},{"gone":true,"k":2,"t":"hydrant"}"#,
        ],
        r#"rule 0 parts 1 1 main/3/new+1 main/4/new+1 served picked blocked 1
rule 1 parts 1 1 hydrant/1/old-0 served main/3/old-1 main/3/new+1 picked main/3/old-1 main/3/new+1 blocked 1
rule 1 parts 1 1 hydrant/2/old-2 served main/3/old-1 main/3/new+1 picked main/3/old-1 main/3/new+1 blocked 1
rule 1 parts 1 1 hydrant/5/old served main/3/old-1 main/3/new+1 picked main/3/old-1 main/3/new+1 blocked 1
rule 2 parts 1 1 duct/7/new+1 served picked blocked 1
rule 3 parts 1 1 main/8/old duct/7/new+1 served picked blocked 1
rule 3 parts 1 2 main/8/old duct/7/new+1 served picked blocked 1
clash 1 rule 0 parts 1 1 main/3/new+1 main/4/new+1
independent no yes no
"#,
    ),
    (
        r#"{"k":1,"s":[2,0],"t":"node","v":["tee"]},{"k":3,"s":[0,0],"t":"node","v":["tee"]},{"k":5,"s":[8,4],"t":"node","v":["valve"]},
{"k":6,"s":[8,6],"t":"node","v":["tee"]},{"k":7,"s":[6,4],"t":"node","v":["valve"]},{"k":8,"s":[4,2],"t":"node","v":["tee"]},
{"k":3,"s":[8,8,8,2],"t":"main","v":["A"]},{"k":7,"s":[8,4,4,0],"t":"main","v":["D"]},{"k":2,"s":[5,8],"t":"hydrant","v":[3]}"#,
        &[
            r#"{"k":6,"s":[2,6],"t":"node","v":["tee"]},{"k":12,"s":[0,4],"t":"node","v":["tee"]},{"gone":true,"k":2,"t":"hydrant"}"#,
            r#"{"gone":true,"k":3,"t":"node"},{"k":10,"s":[4,8],"t":"node","v":["tee"]},{"k":3,"s":[6,6,4,2],"t":"main","v":["A"]}"#,
            r#"{"k":7,"s":[4,0],"t":"node","v":["tee"]},{"k":5,"s":[2,6,8,0,7000000,5],"t":"duct","v":[1]},{"k":7,"s":[3,2],"t":"hydrant","v":[3]}"#,
        ],
        r#"rule 1 parts 1 1 hydrant/2/old-0 served main/3/old-1 main/3/new+1 picked main/3/old-1 main/3/new+1 blocked 1
rule 1 parts 1 1 hydrant/7/new+2 served main/3/old-1 main/3/new+1 picked main/3/old-1 main/3/new+1 blocked 1 2
rule 2 parts 1 1 duct/5/new+2 served node/6/new+0 picked blocked 2
rule 3 parts 1 1 main/3/new+1 duct/5/new+2 served picked blocked 1 2
rule 3 parts 1 1 main/7/old duct/5/new+2 served picked blocked 2
rule 4 parts 1 1 node/1/old hydrant/7/new+2 served picked blocked 2
rule 4 parts 1 1 node/7/new+2 hydrant/7/new+2 served picked blocked 2
rule 4 parts 1 1 node/8/old hydrant/7/new+2 served picked blocked 2
rule 4 parts 1 1 node/10/new+1 hydrant/2/old-0 served picked blocked 1
clash 2 rule 2 parts 1 1 duct/5/new+2
clash 1 rule 4 parts 1 1 node/10/new+1 hydrant/2/old-0
independent no no no
"#,
    ),
    (
        r#"{"k":1,"s":[0,8],"t":"node","v":["tee"]},{"k":4,"s":[0,6],"t":"node","v":["valve"]},{"k":6,"s":[6,2],"t":"node","v":["tee"]},
{"k":7,"s":[8,2],"t":"node","v":["tee"]},{"k":8,"s":[0,8],"t":"node","v":["valve"]},{"k":4,"s":[2,6,6,4],"t":"main","v":["B"]},
{"k":7,"s":[0,6,4,2],"t":"duct","v":[3]},{"k":2,"s":[3,0],"t":"hydrant","v":[4]},{"k":5,"s":[3,6],"t":"hydrant","v":[4]}"#,
        &[
            r#"{"gone":true,"k":1,"t":"node"},{"gone":true,"k":6,"t":"node"},{"k":7,"s":[5,2],"t":"hydrant","v":[3]}"#,
            r#"{"k":1,"s":[0,2,0,8],"t":"main","v":["C"]},{"k":4,"s":[-1000000000,7,1000000000,0],"t":"main","v":["C"]}"#,
            r#"{"k":6,"s":[7,2],"t":"hydrant","v":[2]}"#,
        ],
        r#"rule 0 parts 1 1 main/1/new+1 main/4/new+1 served picked blocked 1
rule 1 parts 1 1 hydrant/2/old served main/4/old-1 main/4/new+1 picked main/4/old-1 main/4/new+1 blocked 1
rule 1 parts 1 1 hydrant/5/old served main/4/old-1 main/4/new+1 picked main/4/old-1 main/4/new+1 blocked 1
rule 1 parts 1 1 hydrant/6/new+2 served picked blocked 2
rule 1 parts 1 1 hydrant/7/new+0 served picked blocked 0
rule 3 parts 1 1 main/1/new+1 duct/7/old served picked blocked 1
rule 3 parts 1 1 main/4/new+1 duct/7/old served picked blocked 1
rule 4 parts 1 1 node/6/old-0 hydrant/6/new+2 served picked blocked 2
rule 4 parts 1 1 node/7/old hydrant/6/new+2 served picked blocked 2
clash 1 rule 0 parts 1 1 main/1/new+1 main/4/new+1
clash 2 rule 1 parts 1 1 hydrant/6/new+2
clash 0 rule 1 parts 1 1 hydrant/7/new+0
independent yes no yes
"#,
    ),
    (
        r#"{"k":1,"s":[8,4],"t":"node","v":["tee"]},{"k":5,"s":[8,4],"t":"node","v":["tee"]},{"k":6,"s":[2,8],"t":"node","v":["tee"]},
{"k":7,"s":[4,8],"t":"node","v":["tee"]},{"k":3,"s":[2,2,4,4],"t":"main","v":["B"]},{"k":8,"s":[0,8,8,8],"t":"main","v":["C"]},
{"k":8,"s":[3,0],"t":"hydrant","v":[3]}"#,
        &[
            r#"{"k":8,"s":[6,6,6,2,2,4,2,0],"t":"duct","v":[2]},{"k":6,"s":[9,6],"t":"hydrant","v":[3]},{"gone":true,"k":8,"t":"hydrant"}"#,
            r#"{"k":3,"s":[8,0,2,2],"t":"main","v":["A"]}"#,
            r#"{"gone":true,"k":8,"t":"main"}"#,
        ],
        r#"rule 1 parts 1 1 hydrant/6/new+0 served main/3/old-1 main/3/new+1 picked main/3/old-1 main/3/new+1 blocked 0 1
rule 1 parts 1 1 hydrant/8/old-0 served main/3/old-1 main/3/new+1 picked main/3/old-1 main/3/new+1 blocked 1
rule 2 parts 1 1 duct/8/new+0 served picked blocked 0
rule 3 parts 1 2 main/3/old-1 duct/8/new+0 served picked blocked 0
rule 3 parts 1 3 main/3/old-1 duct/8/new+0 served picked blocked 0
rule 3 parts 1 3 main/3/new+1 duct/8/new+0 served picked blocked 0 1
rule 4 parts 1 1 node/1/old hydrant/6/new+0 served picked blocked 0
rule 4 parts 1 1 node/5/old hydrant/6/new+0 served picked blocked 0
clash 0 rule 2 parts 1 1 duct/8/new+0
independent no yes yes
"#,
    ),
    (
        r#"{"k":2,"s":[0,2],"t":"node","v":["tee"]},{"k":3,"s":[2,0],"t":"node","v":["tee"]},{"k":4,"s":[8,0],"t":"node","v":["valve"]},
{"k":5,"s":[8,0],"t":"node","v":["valve"]},{"k":8,"s":[0,0],"t":"node","v":["tee"]},{"k":1,"s":[0,2,2,2],"t":"main","v":["D"]},
{"k":6,"s":[2,2,2,0],"t":"main","v":["A"]},{"k":7,"s":[0,8,2,0],"t":"main","v":["C"]},{"k":6,"s":[8,0,2,4,4,4,8,2],"t":"duct","v":[2]},
{"k":5,"s":[1,6],"t":"hydrant","v":[1]},{"k":7,"s":[9,4],"t":"hydrant","v":[1]}"#,
        &[
            r#"{"k":12,"s":[8,6],"t":"node","v":["tee"]},{"k":11,"s":[2,0,0,0],"t":"main","v":["C"]},{"gone":true,"k":7,"t":"hydrant"}"#,
            r#"{"k":3,"s":[0,4],"t":"node","v":["valve"]},{"k":4,"s":[0,2],"t":"node","v":["tee"]},{"k":2,"s":[5,2],"t":"hydrant","v":[4]}"#,
            r#"{"k":5,"s":[4,6],"t":"node","v":["tee"]},{"k":1,"s":[2,4,0,4],"t":"main","v":["D"]}"#,
        ],
        r#"rule 0 parts 1 1 main/7/old main/11/new+0 served picked blocked 0
rule 1 parts 1 1 hydrant/2/new+1 served picked blocked 1
rule 1 parts 1 1 hydrant/5/old served main/1/old-2 main/1/new+2 picked main/1/old-2 main/1/new+2 blocked 2
rule 1 parts 1 1 hydrant/7/old-0 served main/1/old-2 main/1/new+2 picked main/1/old-2 main/1/new+2 blocked 2
rule 2 parts 1 1 duct/6/old served node/4/old-1 node/5/old-2 picked blocked 1 2
rule 3 parts 1 1 main/1/new+2 duct/6/old served picked blocked 2
rule 3 parts 1 2 main/1/new+2 duct/6/old served picked blocked 2
rule 4 parts 1 1 node/3/new+1 hydrant/5/old served picked blocked 1
clash 0 rule 0 parts 1 1 main/7/old main/11/new+0
clash 1 rule 1 parts 1 1 hydrant/2/new+1
clash 2 rule 3 parts 1 1 main/1/new+2 duct/6/old
independent yes no no
"#,
    ),
    (
        r#"{"k":1,"s":[6,4],"t":"node","v":["tee"]},{"k":2,"s":[8,0],"t":"node","v":["tee"]},{"k":3,"s":[2,2],"t":"node","v":["tee"]},
{"k":4,"s":[0,0],"t":"node","v":["valve"]},{"k":6,"s":[4,6],"t":"node","v":["tee"]},{"k":7,"s":[8,6],"t":"node","v":["valve"]},
{"k":8,"s":[8,4],"t":"node","v":["tee"]},{"k":1,"s":[2,2,4,2],"t":"main","v":["B"]},{"k":2,"s":[0,4,2,0],"t":"main","v":["D"]},
{"k":7,"s":[1,8],"t":"hydrant","v":[1]}"#,
        &[
            r#"{"gone":true,"k":3,"t":"node"},{"k":12,"s":[2,0,6,6],"t":"main","v":["C"]},{"k":9,"s":[5,2],"t":"hydrant","v":[2]}"#,
            r#"{"gone":true,"k":2,"t":"node"},{"gone":true,"k":8,"t":"node"},{"k":6,"s":[6,6,6,2,2,4],"t":"duct","v":[2]}"#,
            r#"{"gone":true,"k":6,"t":"node"},{"k":2,"s":[-1000000000,0,1000000000,7],"t":"main","v":["B"]},{"k":12,"s":[5,0],"t":"hydrant","v":[2]}"#,
        ],
        r#"rule 0 parts 1 1 main/1/old main/2/new+2 served picked blocked 2
rule 1 parts 1 1 hydrant/9/new+0 served main/2/old-2 main/2/new+2 picked main/2/old-2 main/2/new+2 blocked 0 2
rule 1 parts 1 1 hydrant/12/new+2 served main/2/old-2 main/2/new+2 picked main/2/new+2 blocked 2
rule 2 parts 1 1 duct/6/new+1 served picked blocked 1
rule 3 parts 1 1 main/2/new+2 duct/6/new+1 served picked blocked 1 2
rule 3 parts 1 2 main/2/new+2 duct/6/new+1 served picked blocked 1 2
rule 3 parts 1 1 main/12/new+0 duct/6/new+1 served picked blocked 0 1
rule 3 parts 1 2 main/12/new+0 duct/6/new+1 served picked blocked 0 1
rule 4 parts 1 1 node/1/old hydrant/9/new+0 served picked blocked 0
clash 2 rule 0 parts 1 1 main/1/old main/2/new+2
clash 1 rule 2 parts 1 1 duct/6/new+1
clash 0 rule 4 parts 1 1 node/1/old hydrant/9/new+0
independent no no no
"#,
    ),
    (
        r#"{"k":1,"s":[8,0],"t":"node","v":["valve"]},{"k":2,"s":[4,0],"t":"node","v":["valve"]},{"k":3,"s":[0,0],"t":"node","v":["valve"]},
{"k":4,"s":[4,2],"t":"node","v":["tee"]},{"k":6,"s":[2,0],"t":"node","v":["tee"]},{"k":8,"s":[8,8],"t":"node","v":["tee"]},
{"k":3,"s":[2,4,0,0],"t":"main","v":["D"]},{"k":4,"s":[0,2,0,8],"t":"main","v":["C"]},{"k":5,"s":[8,2,8,6],"t":"main","v":["B"]},
{"k":2,"s":[3,8],"t":"hydrant","v":[3]}"#,
        &[
            r#"{"k":11,"s":[2,2,0,0],"t":"main","v":["A"]},{"k":1,"s":[4,4,4,6,2,0],"t":"duct","v":[2]}"#,
            r#"{"k":1,"s":[9,0],"t":"hydrant","v":[4]}"#,
            r#"{"gone":true,"k":2,"t":"node"},{"k":3,"s":[-1000000000,7,1000000000,2],"t":"main","v":["B"]},{"gone":true,"k":4,"t":"main"}"#,
        ],
        r#"rule 0 parts 1 1 main/3/new+2 main/5/old served picked blocked 2
rule 1 parts 1 1 hydrant/1/new+1 served main/4/old-2 picked blocked 1 2
rule 1 parts 1 1 hydrant/2/old served main/3/old-2 main/3/new+2 picked main/3/old-2 main/3/new+2 blocked 2
rule 2 parts 1 1 duct/1/new+0 served picked blocked 0
rule 3 parts 1 1 main/3/new+2 duct/1/new+0 served picked blocked 0 2
rule 3 parts 1 2 main/3/new+2 duct/1/new+0 served picked blocked 0 2
rule 4 parts 1 1 node/1/old hydrant/1/new+1 served picked blocked 1
clash 2 rule 0 parts 1 1 main/3/new+2 main/5/old
clash 0 rule 2 parts 1 1 duct/1/new+0
clash 1 rule 4 parts 1 1 node/1/old hydrant/1/new+1
independent yes no no
"#,
    ),
    (
        r#"{"k":1,"s":[0,4],"t":"node","v":["tee"]},{"k":2,"s":[2,0],"t":"node","v":["tee"]},{"k":3,"s":[2,2],"t":"node","v":["tee"]},
{"k":5,"s":[2,2],"t":"node","v":["tee"]},{"k":6,"s":[0,4],"t":"node","v":["tee"]},{"k":8,"s":[4,2],"t":"node","v":["tee"]},
{"k":2,"s":[0,2,6,2],"t":"main","v":["B"]},{"k":4,"s":[6,4,2,6],"t":"main","v":["D"]},{"k":8,"s":[3,6],"t":"hydrant","v":[2]}"#,
        &[
            r#"{"k":9,"s":[4,6],"t":"node","v":["valve"]},{"k":10,"s":[6,2],"t":"node","v":["valve"]},{"k":9,"s":[8,6,2,2],"t":"main","v":["D"]}"#,
            r#"{"k":4,"s":[-1000000000,7,1000000000,2],"t":"main","v":["D"]}"#,
            r#"{"gone":true,"k":2,"t":"main"},{"k":5,"s":[2,2,6,0,4,6,4,8],"t":"duct","v":[2]}"#,
        ],
        r#"rule 0 parts 1 1 main/4/old-1 main/9/new+0 served picked blocked 0
rule 0 parts 1 1 main/4/new+1 main/9/new+0 served picked blocked 0 1
rule 1 parts 1 1 hydrant/8/old served main/2/old-2 picked blocked 2
rule 2 parts 1 1 duct/5/new+2 served node/3/old node/5/old picked node/3/old blocked 2
rule 3 parts 1 2 main/4/old-1 duct/5/new+2 served picked blocked 2
rule 3 parts 1 2 main/4/new+1 duct/5/new+2 served picked blocked 1 2
rule 3 parts 1 1 main/9/new+0 duct/5/new+2 served node/3/old node/5/old picked node/3/old blocked 0 2
rule 3 parts 1 2 main/9/new+0 duct/5/new+2 served picked blocked 0 2
rule 4 parts 1 1 node/9/new+0 hydrant/8/old served picked blocked 0
clash 0 rule 0 parts 1 1 main/4/old-1 main/9/new+0
clash 2 rule 1 parts 1 1 hydrant/8/old
independent no no no
"#,
    ),
];

/// For each scene, the least need that is broken once the changes of each member alone are made, or
/// nothing.
const BROKEN: [[&str; 3]; 8] = [
    ["", "rule 0 main/3 main/4", ""],
    ["", "rule 4 node/10 hydrant/2", "rule 2 duct/5"],
    [
        "rule 1 hydrant/7",
        "rule 0 main/1 main/4",
        "rule 1 hydrant/6",
    ],
    ["rule 2 duct/8", "", ""],
    [
        "rule 0 main/7 main/11",
        "rule 1 hydrant/2",
        "rule 3 main/1 duct/6",
    ],
    [
        "rule 4 node/1 hydrant/9",
        "rule 2 duct/6",
        "rule 0 main/1 main/2",
    ],
    [
        "rule 2 duct/1",
        "rule 4 node/1 hydrant/1",
        "rule 0 main/3 main/5",
    ],
    ["rule 0 main/4 main/9", "", "rule 1 hydrant/8"],
];

#[test]
fn random_scenes(rt: HostRuntime) -> Result<(), Fail> {
    assert_said(&rt, rt.alloc(), (STREETS, ""), &SCENES, &mut Memory::All)
}

/// Returns whether these needs are broken once the changes of each member alone are made.
fn are_broken(alloc: Global, office: &Office, needs: &[&str; 3]) -> Result<bool, Fail> {
    for (member, need) in ["W1", "W2", "W3"].iter().zip(needs.iter()) {
        let line = broken_line(alloc, office, member, &mut Memory::All)?;
        if line.as_slice() != need.as_bytes() {
            return Ok(false);
        }
    }
    Ok(true)
}

/// Returns whether these needs are broken in the office of a scene, once the changes of each member alone are made.
fn are_broken_in(alloc: Global, scene: &SceneOver, needs: &[&str; 3]) -> Result<bool, Fail> {
    let office = network(alloc, STREETS, scene.0, scene.1)?;
    are_broken(alloc, &office, needs)
}

#[test]
fn least_needs_that_members_alone_break(rt: HostRuntime) -> Result<(), Fail> {
    for (scene, needs) in SCENES.iter().zip(BROKEN.iter()) {
        assert!(rt; are_broken_in(rt.alloc(), scene, needs)?, "{}", scene.0);
    }
    Ok(())
}
