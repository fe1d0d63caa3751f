//! What is said of the members of a root, by names.

ghost use Rattle.std.specs.Prelude.{◌≡◌, map};
ghost use Rattle.clr_merge_sets.specs.MergeSetNames.{merge_set};
ghost use Rattle.clr_merge_sets.specs.MergeSets.{AreOfMergeSet, AreParts};

use crate::scene_texts::scene_text;
use clr_call_test_kit::Memory;
use clr_engine::Office;
use clr_groups::groups;
use clr_merge_sets::{MergeSetParts, read_changes, read_merge_set};
use std::alloc::{AllocError, Global};

/// Returns what is said of the scene that the parts of a merge set make; nothing where two members change one cell.
fn text_of_parts(
    alloc: Global,
    office: &Office,
    parts: &MergeSetParts,
    root: &str,
    members: &[&str],
    memory: &mut Memory,
) -> Result<String, AllocError>
    requires { AreParts office.now (merge_set root.now (map (λ name. name.now) members.now)) parts.now }
{
    let _root = root;
    let _members = members;
    match parts.scene(alloc, office) {
        Ok(scene) => scene_text(alloc, &scene, memory),
        Err(_) => Ok(String::new(alloc)),
    }
}

/// Returns what is said of the scene of some members of a root; nothing where they are unfit.
pub(crate) fn merge_set_text(
    alloc: Global,
    office: &Office,
    root: &str,
    members: &[&str],
    memory: &mut Memory,
) -> Result<String, AllocError> {
    let changes = read_changes(alloc, office, &members)?;
    match read_merge_set(alloc, office, root, &members, changes.as_slice()) {
        Ok(parts) => text_of_parts(alloc, office, &parts, root, members, memory),
        Err(_) => Ok(String::new(alloc)),
    }
}

/// Returns the groups of the members of the scene that the parts of a merge set make.
fn groups_of_parts(alloc: Global, office: &Office, parts: &MergeSetParts) -> Option<Vec<Vec<u16>>>
    requires { AreOfMergeSet office.now parts.now }
{
    match parts.scene(alloc, office) {
        Ok(scene) => groups(alloc, &scene).ok(),
        Err(_) => None,
    }
}

/// Returns the groups of children of LIVE.
pub(crate) fn groups_of(alloc: Global, office: &Office, members: &[&str]) -> Option<Vec<Vec<u16>>> {
    let Ok(changes) = read_changes(alloc, office, &members) else {
        return None;
    };
    match read_merge_set(alloc, office, "LIVE", &members, changes.as_slice()) {
        Ok(parts) => groups_of_parts(alloc, office, &parts),
        Err(_) => None,
    }
}
