//! A network, by its tables.

use clr_office_reading::read_office;
use clr_rows::Schema;
use std::alloc::Global;

const TABLES: &str = r#"{"format":2,"tables":[
{"name":"node","columns":[["kind","TEXT"]],"shape":"POINT"},
{"name":"main","columns":[["code","TEXT"],["n","INT"]],"shape":"SEGMENT"},
{"name":"note","columns":[],"shape":"NONE"},
{"name":"route","columns":[["code","TEXT"]],"shape":"PATH"}],"live":[]}"#;

/// Returns the schema of the tables of an office text.
pub(crate) fn schema_of(alloc: Global, text: &str) -> Option<Schema> {
    let parts = read_office(alloc, text.as_bytes()).ok()?;
    Some(parts.schema)
}

/// Returns the network: nodes with a kind, mains with a code and a number, notes with nothing, and routes, which are paths, with a code.
pub(crate) fn schema(alloc: Global) -> Option<Schema> {
    schema_of(alloc, TABLES)
}
