//! Office texts by name.

/// A node at which two mains cross, and no hydrant: codes of mains are unique, where mains meet
/// there is a node, and a hydrant names its main.
const CROSSING: &str = r#"{"format":1,"tables":[
{"name":"node","columns":[["kind","TEXT"]],"shape":"POINT"},
{"name":"main","columns":[["code","TEXT"]],"shape":"SEGMENT"},
{"name":"hydrant","columns":[["main","INT"]],"shape":"POINT"}],
"rules":[{"kind":"UNIQUE","subject":{"table":"main"},"columns":["code"]},
{"kind":"CROSSING","a":{"table":"main"},"b":{"table":"main"},"server":{"table":"node"}},
{"kind":"PARTNER","subject":{"table":"hydrant"},"columns":["main"],"server":{"table":"main"},"server_columns":["KEY"]}],
"live":[{"t":"node","k":9,"v":["valve"],"s":[5,5]},
{"t":"main","k":1,"v":["A"],"s":[0,0,10,10]},
{"t":"main","k":2,"v":["C"],"s":[0,10,10,0]}]}"#;

/// A network with one main and no node.
const ONE_MAIN: &str = r#"{"format":1,"tables":[
{"name":"node","columns":[["kind","TEXT"]],"shape":"POINT"},
{"name":"main","columns":[["code","TEXT"]],"shape":"SEGMENT"},
{"name":"hydrant","columns":[["main","INT"]],"shape":"POINT"}],
"rules":[{"kind":"UNIQUE","subject":{"table":"main"},"columns":["code"]},
{"kind":"CROSSING","a":{"table":"main"},"b":{"table":"main"},"server":{"table":"node"}},
{"kind":"PARTNER","subject":{"table":"hydrant"},"columns":["main"],"server":{"table":"main"},"server_columns":["KEY"]}],
"live":[{"t":"main","k":1,"v":["A"],"s":[0,0,10,10]}]}"#;

/// The crossing with mains that are paths.
const PATHS: &str = r#"{"format":2,"tables":[
{"name":"node","columns":[["kind","TEXT"]],"shape":"POINT"},
{"name":"main","columns":[["code","TEXT"]],"shape":"PATH"},
{"name":"hydrant","columns":[["main","INT"]],"shape":"POINT"}],
"rules":[{"kind":"UNIQUE","subject":{"table":"main"},"columns":["code"]},
{"kind":"CROSSING","a":{"table":"main"},"b":{"table":"main"},"server":{"table":"node"}},
{"kind":"PARTNER","subject":{"table":"hydrant"},"columns":["main"],"server":{"table":"main"},"server_columns":["KEY"]}],
"live":[{"t":"node","k":9,"v":["valve"],"s":[5,5]},
{"t":"main","k":1,"v":["A"],"s":[0,0,10,10]},
{"t":"main","k":2,"v":["C"],"s":[0,10,10,0]}]}"#;

/// One node, and no rule.
const ONE_NODE: &str = r#"{"format":1,"tables":[
{"name":"node","columns":[["kind","TEXT"]],"shape":"POINT"}],
"live":[{"t":"node","k":9,"v":["valve"],"s":[5,5]}]}"#;

/// One code, which no other row may have.
const ONE_CODE: &str = r#"{"format":3,"tables":[
{"name":"code","columns":[["code","TEXT"]],"shape":"NONE"}],
"rules":[{"kind":"UNIQUE","subject":{"table":"code"},"columns":["code"]}],
"live":[{"t":"code","k":1,"v":["A"],"s":[]}]}"#;

/// Codes of which no two may be the same: in LIVE codes 1 and 2 are, and in W1, which is kept, codes 2 and 4. Both are known.
const OLD_ERRORS: &str = r#"{"format":4,"tables":[
{"name":"code","columns":[["code","TEXT"]],"shape":"NONE"}],
"rules":[{"kind":"UNIQUE","subject":{"table":"code"},"columns":["code"],"known":[[1,2],[2,4]]}],
"live":[{"t":"code","k":1,"v":["A"],"s":[]},{"t":"code","k":2,"v":["A"],"s":[]}],
"workspaces":[{"name":"W1","parent":"LIVE","kept":true,
"rows":[{"t":"code","k":2,"v":["B"],"s":[]},{"t":"code","k":4,"v":["B"],"s":[]}]}]}"#;

/// Returns the office text of a name.
pub fn network(name: &str) -> Option<&'static str> {
    match name {
        "crossing" => Some(CROSSING),
        "one main" => Some(ONE_MAIN),
        "paths" => Some(PATHS),
        "one node" => Some(ONE_NODE),
        "one code" => Some(ONE_CODE),
        "old errors" => Some(OLD_ERRORS),
        _ => None,
    }
}
