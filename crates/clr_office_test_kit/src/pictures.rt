//! All that an office has, as lines.

use clr_engine::{MarkPart, Office, Part};
use clr_lines::rows_lines;
use clr_rows::{Schema, Sheet};
use std::alloc::Global;

/// Adds a heading, and the rows below it.
fn add_rows(
    lines: &mut Vec<u8>,
    alloc: Global,
    schema: &Schema,
    heading: &str,
    rows: &Sheet,
) -> Option<()> {
    lines.extend_from_slice(heading.as_bytes()).ok()?;
    lines.extend_from_slice(b" ").ok()?;
    let rows = rows_lines(alloc, schema, rows).ok()?;
    lines.extend_from_slice(rows.as_slice()).ok()
}

/// Adds a mark: the rows of a savepoint, or the name of a child.
fn add_mark(lines: &mut Vec<u8>, alloc: Global, schema: &Schema, mark: &MarkPart) -> Option<()> {
    match mark {
        MarkPart::Saved(name, rows) => {
            let heading = format!(in alloc; "saved {}", name.as_str()).ok()?;
            add_rows(lines, alloc, schema, heading.as_str(), rows)
        }
        MarkPart::ChildMark(name) => {
            let line = format!(in alloc; "child {}\n", name.as_str()).ok()?;
            lines.extend_from_slice(line.as_bytes()).ok()
        }
    }
}

/// Adds a workspace: its name, its parent, whether it is kept, its rows, and its marks in order.
fn add_part(lines: &mut Vec<u8>, alloc: Global, schema: &Schema, part: &Part) -> Option<()> {
    let flag = if part.kept { " kept" } else { "" };
    let (name, parent) = (part.name.as_str(), part.parent.as_str());
    let line = format!(in alloc; "{name} under {parent}{flag}\n").ok()?;
    lines.extend_from_slice(line.as_bytes()).ok()?;
    add_rows(lines, alloc, schema, "base", &part.base)?;
    add_rows(lines, alloc, schema, "now", &part.current)?;
    for mark in &part.marks {
        add_mark(lines, alloc, schema, mark)?;
    }
    Some(())
}

/// Returns whether there is no workspace at position 0, which is LIVE's, and past the end.
fn has_ends(office: &Office) -> bool {
    matches!(office.part(0), Ok(None)) && matches!(office.part(office.len()), Ok(None))
}

/// Adds the rows of LIVE and then each workspace in order of creation.
pub fn add_picture(lines: &mut Vec<u8>, alloc: Global, office: &Office) -> Option<()> {
    add_rows(lines, alloc, office.schema(), "LIVE", office.live())?;
    for position in 1..office.len() {
        let part = office.part(position).ok()??;
        add_part(lines, alloc, office.schema(), &part)?;
    }
    if has_ends(office) { Some(()) } else { None }
}

/// Returns the rows of LIVE and each workspace.
pub fn picture(alloc: Global, office: &Office) -> Option<Vec<u8>> {
    let mut lines = Vec::new(alloc);
    add_picture(&mut lines, alloc, office)?;
    Some(lines)
}
