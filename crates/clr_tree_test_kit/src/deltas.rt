//! Parts by their differences, of which some are neutral, and operations that make the same workspaces.

use crate::fixtures::{cell, numbered_sheet, row_of, words};
use clr_deltas::{Delta, Differences, StoredMark, StoredPart};
use clr_rows::Row;
use clr_tree::Tree;
use std::alloc::{AllocError, Global};

/// What makes the workspaces of the parts, where LIVE has number 1 at the keys 1 to 3.
pub const SAME_DEEDS: &str = "LIVE put 2 5
A create LIVE
LIVE put 2 1
A put 3 7
A mark s
A put 3 2
A hold
B create A
B put 1 3
B delete 2
B hold
";

/// Returns a row with a number, or none for 0.
fn row_or_none(alloc: Global, number: i64) -> Result<Option<Row>, AllocError> {
    if number == 0 {
        return Ok(None);
    }
    Ok(Some(row_of(alloc, number)?))
}

/// Differences with these numbers at these keys.
fn differences_of(alloc: Global, rows: &[(i64, i64)]) -> Result<Differences, AllocError> {
    let mut differences = Differences::new(alloc);
    for (key, number) in rows {
        differences.put(cell(*key), row_or_none(alloc, *number)?)?;
    }
    Ok(differences)
}

/// Returns a part with these differences in its base and in its current content.
fn part_of(
    alloc: Global,
    name: &str,
    parent: &str,
    base: &[(i64, i64)],
    current: &[(i64, i64)],
    marks: Vec<StoredMark>,
) -> Result<StoredPart, AllocError> {
    let name = words(alloc, name)?;
    let delta = Delta {
        parent: words(alloc, parent)?,
        base: differences_of(alloc, base)?,
        current: differences_of(alloc, current)?,
        marks,
        kept: true,
    };
    Ok(StoredPart { name, delta })
}

/// Returns a savepoint, and the mark of a child.
fn both_marks(alloc: Global) -> Result<Vec<StoredMark>, AllocError> {
    let mut marks = Vec::new(alloc);
    let saved = differences_of(alloc, &[(1, 1), (3, 7), (6, 0)])?;
    marks.push(StoredMark::Saved(words(alloc, "s")?, saved))?;
    marks.push(StoredMark::Child(words(alloc, "B")?))?;
    Ok(marks)
}

/// Returns the first part: of the three differences of its base two are neutral, and so of its current content and of its
/// savepoint.
fn first_part(alloc: Global) -> Result<StoredPart, AllocError> {
    let base = [(1, 1), (2, 5), (4, 0)];
    let current = [(2, 5), (3, 2), (5, 0)];
    let marks = both_marks(alloc)?;
    part_of(alloc, "A", "LIVE", &base, &current, marks)
}

/// Returns the second part: the difference of its base is neutral, and one of three of its current content.
fn second_part(alloc: Global) -> Result<StoredPart, AllocError> {
    let current = [(1, 3), (2, 0), (3, 2)];
    part_of(alloc, "B", "A", &[(3, 2)], &current, Vec::new(alloc))
}

/// Returns the parts.
pub fn delta_parts(alloc: Global) -> Result<Vec<StoredPart>, AllocError> {
    let mut parts = Vec::new(alloc);
    parts.push(first_part(alloc)?)?;
    parts.push(second_part(alloc)?)?;
    Ok(parts)
}

/// Returns the tree of these parts.
pub fn delta_tree(alloc: Global) -> Result<Tree, AllocError> {
    let live = numbered_sheet(alloc, &[(1, 1), (2, 1), (3, 1)])?;
    let parts = delta_parts(alloc)?;
    match Tree::of_deltas(alloc, live, parts) {
        Ok(tree) => Ok(tree),
        Err(_) => Err(AllocError),
    }
}
