//! The first two members that change each cell.

ghost use Rattle.std.specs.Prelude.{◌≤◌, ◌<◌, ◌+◌, ◌≡◌, length, map, IfOk, OnOk};
ghost use Rattle.clr_needs.specs.declared.limits.TheConstants.{MOST_MEMBERS};
ghost use Rattle.clr_row_versions.specs.Changers.{AreChangersBelow, key_of, with_member};

use clr_change::ChangeSet;
use clr_rows::CellId;
use std::alloc::{AllocError, Global};
use std::collections::HashMap;

/// The first member that changes a cell, and the second, if two do.
#[derive(Clone, Copy, Debug)]
pub(crate) struct Changers {
    pub(crate) first: u16,
    pub(crate) second: Option<u16>,
}

/// Returns the table and the key of a cell.
pub(crate) fn key_of(cell: CellId) -> (u16, i64)
    ensures { result ≡ key_of cell }
{
    (cell.table, cell.key)
}

/// Returns the changers of a cell that one more member changes, behind those that were found.
fn with_member(found: Option<Changers>, position: u16) -> Changers
    ensures { result ≡ with_member found position }
{
    match found {
        None => Changers {
            first: position,
            second: None,
        },
        Some(
            Changers {
                first,
                second: None,
            },
        ) if first != position => Changers {
            first,
            second: Some(position),
        },
        Some(found) => found,
    }
}

/// Notes a member at each cell that it changes. Cells are told apart by table and key.
fn note_member(
    sets: &[&ChangeSet],
    position: usize,
    changers: &mut HashMap<(u16, i64), Changers>,
) -> Result<(), AllocError>
    requires few { length sets.now ≤ MOST_MEMBERS }
    requires within { position < length sets.now }
    requires before { AreChangersBelow (map (λ s. s.now) sets.now) position changers.old }
    ensures { OnOk result (AreChangersBelow (map (λ s. s.now) sets.now) (position + 1) changers.new) }
{
    for (cell, _) in sets[position].iter() {
        let key = key_of(*cell);
        let noted = with_member(changers.get(&key).copied(), position as u16);
        changers.insert(key, noted)?;
    }
    Ok(())
}

/// Returns the first two members that change each cell.
pub(crate) fn changers_of(
    alloc: Global,
    sets: &[&ChangeSet],
) -> Result<HashMap<(u16, i64), Changers>, AllocError>
    requires few { length sets.now ≤ MOST_MEMBERS }
    ensures { IfOk result (λ changers. AreChangersBelow (map (λ s. s.now) sets.now) (length sets.now) changers) }
{
    let mut changers = HashMap::new(alloc);
    for position in 0..sets.len() {
        note_member(sets, position, &mut changers)?;
    }
    Ok(changers)
}
