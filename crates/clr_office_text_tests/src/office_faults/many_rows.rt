//! A fault among many rows.

use crate::office_faults::spots::fault_text;
use std::alloc::Global;

const ROWS: u16 = 60;

const HEAD: &str =
    r#"{"format":1,"tables":[{"name":"node","columns":[["n","INT"]],"shape":"POINT"}],"live":["#;

/// Returns an office text with many rows, of which this one has a text for its number.
fn text_with(alloc: Global, bad: u16) -> Option<String> {
    let mut text = String::from_str(alloc, HEAD).ok()?;
    for row in 0..ROWS {
        let comma = if row == 0 { "" } else { "," };
        let number = if row == bad { "\"9\"" } else { "9" };
        let key = row + 1;
        let row = format!(in alloc; r#"{comma}{{"t":"node","k":{key},"v":[{number}],"s":[7,0]}}"#);
        text.push_str(row.ok()?.as_str()).ok()?;
    }
    text.push_str("]}").ok()?;
    Some(text)
}

/// Returns whether the fault of a text is at the row that has it.
fn is_at_row(alloc: Global, bad: u16) -> Option<bool> {
    let text = text_with(alloc, bad)?;
    let told = fault_text(alloc, text.as_str())?;
    let wanted = format!(in alloc; "BadRow Live({bad})").ok()?;
    Some(told.as_str() == wanted.as_str())
}

#[test]
fn faults_of_each_of_many_rows(rt: HostRuntime) {
    for bad in 0..ROWS {
        assert!(rt; is_at_row(rt.alloc(), bad) == Some(true), "row {bad}");
    }
}
