//! Names of members.

use std::alloc::Global;

/// Returns a root and members, whose names stand in a line.
pub fn members_of(alloc: Global, line: &str) -> Option<(&str, Vec<&str>)> {
    let (root, rest) = line.split_once(" ").unwrap_or((line, ""));
    let mut members = Vec::new(alloc);
    for name in rest.split_whitespace() {
        members.push(name).ok()?;
    }
    Some((root, members))
}
