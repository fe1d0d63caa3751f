//! Rules of office texts.

use crate::questions::check;
use clr_office_reading::read_office;
use std::alloc::Global;

/// A network with a rule of each kind.
const NETWORK: &str = r#"{"format":1,"tables":[
{"name":"node","columns":[["kind","TEXT"],["size","INT"]],"shape":"POINT"},
{"name":"main","columns":[["code","TEXT"],["n","INT"]],"shape":"SEGMENT"},
{"name":"hydrant","columns":[["main","INT"]],"shape":"POINT"}],
"rules":[{"kind":"UNIQUE","subject":{"table":"main"},"columns":["n","code"]},
{"kind":"PARTNER","subject":{"table":"hydrant"},"columns":["main"],"server":{"table":"main"},"server_columns":["KEY"]},
{"kind":"ENDNODE","subject":{"table":"main","where":[["n",3]]},"tip":"SECOND","server":{"table":"node","where":[]}},
{"kind":"CROSSING","a":{"table":"main"},"b":{"table":"main"},"server":{"table":"node","where":[["kind","tee"],["size",2]]}},
{"kind":"NEAR","a":{"table":"hydrant"},"b":{"table":"node"},"d":1000000}],
"live":[]}"#;

/// What each rule is by its number, and that there is none beyond the last.
const RULES: &str =
    "rule 0 => Unique { subject: Side { table: 1, filter: List { list: [] } }, columns: List { list: [At(1), At(0)] } }
rule 1 => Partner { subject: Side { table: 2, filter: List { list: [] } }, columns: List { list: [At(0)] }, \
     server: Side { table: 1, filter: List { list: [] } }, server_columns: List { list: [Key] } }
rule 2 => EndNode { subject: Side { table: 1, filter: List { list: [(1, Int(3))] } }, tip: Second, \
     server: Side { table: 0, filter: List { list: [] } } }
rule 3 => Crossing { a: Side { table: 1, filter: List { list: [] } }, b: Side { table: 1, filter: List { list: [] } }, \
     server: Side { table: 0, filter: List { list: [(0, Words(Words { text: \"tee\" })), (1, Int(2))] } } }
rule 4 => Near { a: Side { table: 2, filter: List { list: [] } }, b: Side { table: 0, filter: List { list: [] } }, d: 1000000 }
rule 5 => None";

/// Returns the rule of a number.
pub(super) fn rule_text(alloc: Global, number: &str) -> Option<String> {
    let parts = read_office(alloc, NETWORK.as_bytes()).ok()?;
    match parts.book.rules().get(number.parse::<usize>().ok()?) {
        Some(rule) => format!(in alloc; "{rule:?}").ok(),
        None => String::from_str(alloc, "None").ok(),
    }
}

#[test]
fn a_rule_of_each_kind(rt: HostRuntime) {
    check(&rt, rt.alloc(), RULES);
}
