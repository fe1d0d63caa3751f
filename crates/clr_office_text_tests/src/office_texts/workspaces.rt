//! Workspaces of office texts.

use crate::questions::check;
use clr_deltas::{Differences, StoredMark};
use clr_office_reading::{StoredPart, read_office};
use clr_row_test_kit::{add_part, change_text};
use clr_rows::{CellId, Row};
use std::alloc::Global;

/// Node 9 in LIVE, K under LIVE, which is kept, and V1 under K.
const NESTED: &str =
    r#"{"format":3,"tables":[{"name":"node","columns":[["kind","TEXT"]],"shape":"POINT"}],
"live":[{"t":"node","k":9,"v":["valve"],"s":[5,5]}],
"workspaces":[{"name":"K","parent":"LIVE","kept":true,
"base":[{"t":"node","k":9,"gone":true,"v":null},{"t":"node","k":7,"v":["tap"],"s":[1,1]}],
"rows":[{"t":"node","k":10,"v":["tee"],"s":[7,7],"gone":false}],
"marks":[{"savepoint":"s1","rows":[{"t":"node","k":7,"gone":true}]},{"child":"V1","savepoint":1},{"savepoint":"LIVE"}]},
{"name":"V1","parent":"K"}]}"#;

/// What the workspaces are by their numbers: names and parents, flags, bases, rows and marks. There is none beyond the last.
const WORKSPACES: &str =
    "workspace 0 => K under LIVE true base [row 0.7 'tap 1,1, gone 0.9] rows [row 0.10 'tee 7,7] \
marks [s1 [gone 0.7], child V1, LIVE []]
workspace 1 => V1 under K false base [] rows [] marks []
workspace 2 => None";

fn difference_text(alloc: Global, cell: CellId, row: Option<&Row>) -> Option<String> {
    match row {
        Some(row) => change_text(alloc, "row", cell, row),
        None => format!(in alloc; "gone {}.{}", cell.table, cell.key).ok(),
    }
}

/// Returns the differences by cell.
fn differences_text(alloc: Global, differences: &Differences) -> Option<String> {
    let mut text = String::new(alloc);
    for (cell, row) in differences.rows().ok()?.as_slice() {
        let part = difference_text(alloc, *cell, row.as_ref())?;
        add_part(&mut text, ", ", part.as_str())?;
    }
    Some(text)
}

fn mark_text(alloc: Global, mark: &StoredMark) -> Option<String> {
    match mark {
        StoredMark::Saved(name, rows) => {
            let rows = differences_text(alloc, rows)?;
            format!(in alloc; "{} [{}]", name.as_str(), rows.as_str()).ok()
        }
        StoredMark::Child(name) => format!(in alloc; "child {}", name.as_str()).ok(),
    }
}

fn marks_text(alloc: Global, marks: &[StoredMark]) -> Option<String> {
    let mut text = String::new(alloc);
    for mark in marks {
        add_part(&mut text, ", ", mark_text(alloc, mark)?.as_str())?;
    }
    Some(text)
}

fn part_text(alloc: Global, part: &StoredPart) -> Option<String> {
    let (name, parent) = (part.name.as_str(), part.delta.parent.as_str());
    let base = differences_text(alloc, &part.delta.base)?;
    let rows = differences_text(alloc, &part.delta.current)?;
    let marks = marks_text(alloc, part.delta.marks.as_slice())?;
    let (base, rows, kept) = (base.as_str(), rows.as_str(), part.delta.kept);
    format!(in alloc;
        "{name} under {parent} {kept} base [{base}] rows [{rows}] marks [{}]",
        marks.as_str()
    )
    .ok()
}

/// Returns the workspace of a number.
pub(super) fn workspace_text(alloc: Global, number: &str) -> Option<String> {
    let parts = read_office(alloc, NESTED.as_bytes()).ok()?;
    match parts.workspaces.get(number.parse::<usize>().ok()?) {
        Some(part) => part_text(alloc, part),
        None => String::from_str(alloc, "None").ok(),
    }
}

#[test]
fn workspaces_with_their_marks(rt: HostRuntime) {
    check(&rt, rt.alloc(), WORKSPACES);
}
