//! Tables and rows of office texts.

use crate::office_texts::answers::with_path;
use crate::questions::check;
use clr_office_reading::read_office;
use clr_row_test_kit::sheet_text;
use std::alloc::Global;

/// Nodes, mains and hydrants, with a node and two mains that cross there.
const NETWORK: &str = r#"{"format":1,"tables":[
{"name":"node","columns":[["kind","TEXT"]],"shape":"POINT"},
{"name":"main","columns":[["code","TEXT"]],"shape":"SEGMENT"},
{"name":"hydrant","columns":[["main","INT"]],"shape":"POINT"}],
"live":[{"t":"node","k":9,"v":["valve"],"s":[5,5]},
{"t":"main","k":1,"v":["A"],"s":[0,0,10,10]},
{"t":"main","k":2,"v":["C"],"s":[0,10,10,0]}]}"#;

/// Tables with their numbers.
const TABLES: &str = "table node => Some(0)
table main => Some(1)
table hydrant => Some(2)
table pipe => None";

/// Returns the number of a table.
pub(super) fn table_text(alloc: Global, name: &str) -> Option<String> {
    let parts = read_office(alloc, NETWORK.as_bytes()).ok()?;
    format!(in alloc; "{:?}", parts.schema.table(name)).ok()
}

#[test]
fn tables_in_order(rt: HostRuntime) {
    check(&rt, rt.alloc(), TABLES);
}

/// Returns the rows of LIVE of the network, or of a text whose path has six coordinates.
pub(super) fn rows_text(alloc: Global, word: &str) -> Option<String> {
    let path = with_path(alloc, "route", "6")?;
    let text = if word == "network" {
        NETWORK
    } else {
        path.as_str()
    };
    let parts = read_office(alloc, text.as_bytes()).ok()?;
    sheet_text(alloc, &parts.live)
}

#[test]
fn rows_of_live(rt: HostRuntime) {
    let line = "rows network => row 0.9 'valve 5,5, row 1.1 'A 0,0 10,10, row 1.2 'C 0,10 10,0";
    check(&rt, rt.alloc(), line);
}

#[test]
fn a_path_of_live(rt: HostRuntime) {
    check(&rt, rt.alloc(), "rows path => row 0.5 'R path 0,0 1,1 0,0");
}
