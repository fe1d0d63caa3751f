//! Needs that are known to be broken, as office texts name them.

use crate::questions::check;
use clr_office_reading::{KnownNeeds, read_office};
use std::alloc::Global;

/// An office text of format 4 up to the end of its rule 0. Nodes are table 0, mains 1, hydrants 2.
const TABLES: &str = r#"{"format":4,"tables":[
{"name":"node","columns":[["kind","TEXT"]],"shape":"POINT"},
{"name":"main","columns":[["code","TEXT"]],"shape":"PATH"},
{"name":"hydrant","columns":[["main","INT"]],"shape":"POINT"}],
"live":[],"rules":[{"kind":"UNIQUE","subject":{"table":"node"},"columns":["kind"]},"#;

/// The kind of rule 1, its known needs, and these by rule, and of each row its table, key and part.
const KNOWN: &str = r#"known UNIQUE [] =>
known UNIQUE [[1,2],[1,9],[1,2]] => 1 1/1/1 1/2/1; 1 1/1/1 1/9/1; 1 1/1/1 1/2/1
known UNIQUE [[1,999999999999999]] => 1 1/1/1 1/999999999999999/1
known UNIQUE [[1,1000000000000000]] => BadRule
known UNIQUE [[0,2]] => BadRule
known UNIQUE [[2,1]] => BadRule
known UNIQUE [[1,1]] => BadRule
known UNIQUE [[1]] => BadField
known UNIQUE [[1,2,1,1]] => BadField
known UNIQUE [[1,2.0]] => BadField
known UNIQUE [[1,"2"]] => BadField
known UNIQUE [1,2] => BadField
known UNIQUE null => BadField
known UNIQUE {} => BadField
known UNIQUE [[0,2],[1]] => BadField
known PARTNER [[7],[3]] => 1 2/7/1; 1 2/3/1
known PARTNER [[7,8]] => BadField
known PARTNER [[]] => BadField
known PARTNER [[-1]] => BadRule
known ENDNODE [[4]] => 1 1/4/1
known ENDNODE [[1000000000000000]] => BadRule
known CROSSING [[1,2]] => 1 1/1/1 1/2/1
known CROSSING [[1,2,2,31]] => 1 1/1/2 1/2/31
known CROSSING [[1,2,1,32]] => BadRule
known CROSSING [[1,2,0,1]] => BadRule
known CROSSING [[2,1,1,1]] => BadRule
known CROSSING [[1,2,2]] => BadField
known CROSSING [[1,2,1,9223372036854775807]] => BadRule
known CROSSING [[1,2,1,9223372036854775808]] => BadField
known NEAR [[12,7]] => 1 0/12/1 2/7/1
known NEAR [[12,7,1,1]] => BadField"#;

/// Returns what makes a rule of a kind.
fn rule_of(kind: &str) -> &'static str {
    match kind {
        "UNIQUE" => r#""subject":{"table":"main"},"columns":["code"]"#,
        "PARTNER" => {
            r#""subject":{"table":"hydrant"},"columns":["main"],"server":{"table":"main"},"server_columns":["KEY"]"#
        }
        "ENDNODE" => r#""subject":{"table":"main"},"tip":"FIRST","server":{"table":"node"}"#,
        "CROSSING" => r#""a":{"table":"main"},"b":{"table":"main"},"server":{"table":"node"}"#,
        _ => r#""a":{"table":"hydrant"},"b":{"table":"node"},"d":5"#,
    }
}

/// Returns needs, each by its rule, and of each row its table, key and part.
fn needs_text(alloc: Global, known: &KnownNeeds) -> Option<String> {
    let mut text = String::new(alloc);
    for need in known.as_slice() {
        if !text.as_str().is_empty() {
            text.push_str("; ").ok()?;
        }
        let first = need.first;
        let one = format!(in alloc;
            "{} {}/{}/{}",
            need.rule, first.table, first.key, need.first_part
        )
        .ok()?;
        text.push_str(one.as_str()).ok()?;
        if let Some(second) = need.second {
            let other = format!(in alloc;
                " {}/{}/{}",
                second.table, second.key, need.second_part
            ).ok()?;
            text.push_str(other.as_str()).ok()?;
        }
    }
    Some(text)
}

/// Returns the needs that a text names in a rule of a kind, or why it is refused.
pub(super) fn known_text(alloc: Global, case: &str) -> Option<String> {
    let (kind, known) = case.split_once(' ')?;
    let rule = rule_of(kind);
    let text = format!(in alloc; r#"{TABLES}{{"kind":"{kind}",{rule},"known":{known}}}]}}"#).ok()?;
    match read_office(alloc, text.as_str().as_bytes()) {
        Ok(parts) => needs_text(alloc, &parts.known),
        Err(fault) => format!(in alloc; "{fault:?}").ok(),
    }
}

#[test]
fn known_needs_of_each_kind(rt: HostRuntime) {
    check(&rt, rt.alloc(), KNOWN);
}
