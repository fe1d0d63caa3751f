//! Which names are probably taken. This is a guess that no contract speaks of: whoever asks for it has a plan show that these are cleared.

use crate::looked::Looked;
use clr_change::ChangeSet;
use clr_engine::Office;
use clr_merge_sets::{name_fault, read_changes, read_merge_set};
use clr_rows::{CellId, Words};
use std::alloc::{AllocError, Global};
use std::collections::BTreeSet;

/// Returns whether a name alone passes the tests of names.
fn passes(alloc: Global, office: &Office, root: &str, name: &Words) -> bool {
    let members: &[&str] = &[name.as_str()];
    name_fault(alloc, office, root, &members).is_none()
}

/// Returns whether a name is one of some names.
fn is_among(names: &[Words], name: &Words) -> bool {
    names.iter().any(|other| other.same(name))
}

/// Returns the names that pass the tests of names, each once.
pub(crate) fn fitting(
    alloc: Global,
    office: &Office,
    root: &str,
    names: &[Words],
) -> Result<Vec<Words>, AllocError> {
    let mut list: Vec<Words> = Vec::new(alloc);
    for name in names {
        if !is_among(list.as_slice(), name) && passes(alloc, office, root, name) {
            list.push(name.copy()?)?;
        }
    }
    Ok(list)
}

/// Returns those of some names that are among others, or those that aren't.
fn parted(
    alloc: Global,
    names: &[Words],
    others: &[Words],
    among: bool,
) -> Result<Vec<Words>, AllocError> {
    let mut list = Vec::new(alloc);
    for name in names {
        if is_among(others, name) == among {
            list.push(name.copy()?)?;
        }
    }
    Ok(list)
}

/// Notes the cells that a member changes, where it is in no conflict and changes none of those noted before. Returns whether it does so.
fn note_cells(
    alloc: Global,
    office: &Office,
    root: &str,
    name: &Words,
    cells: &mut BTreeSet<CellId>,
) -> Result<bool, AllocError> {
    let members: &[&str] = &[name.as_str()];
    let changes = read_changes(alloc, office, &members)?;
    if read_merge_set(alloc, office, root, &members, changes.as_slice()).is_err() {
        return Ok(false);
    }
    note_changed(changes.as_slice(), cells)
}

/// Returns whether a cell that one of some change sets changes is among others.
fn is_one_among(changes: &[ChangeSet], cells: &BTreeSet<CellId>) -> bool {
    for set in changes {
        if set.iter().any(|(cell, _)| cells.contains(cell)) {
            return true;
        }
    }
    false
}

/// Notes the cells that a change set changes.
fn note_set(set: &ChangeSet, cells: &mut BTreeSet<CellId>) -> Result<(), AllocError> {
    for (cell, _) in set.iter() {
        cells.insert(*cell)?;
    }
    Ok(())
}

/// Notes the cells of change sets, where none of them was noted before. Returns whether it does so.
fn note_changed(changes: &[ChangeSet], cells: &mut BTreeSet<CellId>) -> Result<bool, AllocError> {
    if is_one_among(changes, cells) {
        return Ok(false);
    }
    for set in changes {
        note_set(set, cells)?;
    }
    Ok(true)
}

/// Returns those of some names that are in no conflict and change no cell which an earlier one of them changes.
pub(crate) fn apart(
    alloc: Global,
    office: &Office,
    root: &str,
    names: &[Words],
) -> Result<Vec<Words>, AllocError> {
    let mut cells = BTreeSet::new(alloc);
    let mut list = Vec::new(alloc);
    for name in names {
        if note_cells(alloc, office, root, name, &mut cells)? {
            list.push(name.copy()?)?;
        }
    }
    Ok(list)
}

/// Returns names in another order: those that are guessed to be taken, those that weren't looked at, and the others.
fn guessed_first(
    alloc: Global,
    names: &[Words],
    looked: &[Words],
    guessed: &[Words],
) -> Result<Vec<Words>, AllocError> {
    let mut list = parted(alloc, names, guessed, true)?;
    let mut unseen = parted(alloc, names, looked, false)?;
    let mut left = parted(alloc, looked, guessed, false)?;
    list.append(&mut unseen)?;
    list.append(&mut left)?;
    Ok(list)
}

/// Returns the names that are to be looked at together once some were and others of these are guessed to be taken: as many as can be
/// of those that weren't looked at beside those guessed, in the order of all names.
pub(crate) fn apart_again(
    alloc: Global,
    office: &Office,
    root: &str,
    names: &[Words],
    looked: &[Words],
    guessed: &[Words],
) -> Result<Vec<Words>, AllocError> {
    let list = guessed_first(alloc, names, looked, guessed)?;
    let chosen = apart(alloc, office, root, list.as_slice())?;
    parted(alloc, names, chosen.as_slice(), true)
}

/// Returns whether a position is that of a member which is taken.
fn is_taken(taken: &[bool], at: usize) -> bool {
    at < taken.len() && taken[at]
}

/// Returns whether the member at a position breaks one of the needs with those that are taken.
fn is_in_the_way(looked: &Looked, taken: &[bool], at: usize) -> bool {
    looked.broken.iter().any(|clash| {
        clash.members.iter().all(|member| *member as usize == at
            || is_taken(taken, *member as usize))
    })
}

/// Guesses which of the names that were looked at are taken: each that breaks no need with those taken before it.
pub(crate) fn guess(alloc: Global, looked: &Looked) -> Result<Vec<Words>, AllocError> {
    let mut taken = Vec::new(alloc);
    let mut list = Vec::new(alloc);
    for (at, name) in looked.names.iter().enumerate() {
        let is_free = !is_in_the_way(looked, taken.as_slice(), at);
        taken.push(is_free)?;
        if is_free {
            list.push(name.copy()?)?;
        }
    }
    Ok(list)
}
