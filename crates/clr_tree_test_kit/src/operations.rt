//! Deeds: what tests do to the workspaces of a tree.
ghost use Rattle.std.specs.Prelude.{◌≡◌, ◌<◌, true, length, IfSome};
ghost use Rattle.clr_workspaces.specs.Marks.{is_saved, mark_at};
ghost use Rattle.clr_workspaces.specs.Workspaces.{workspace_at};

use crate::fixtures::{cell, row_of};
use clr_change::ChangeSet;
use clr_rows::{Row, good_name};
use clr_tree::{Keep, MOST_LEVELS, MOST_SAVEPOINTS, MOST_WORKSPACES, Rebase, Tree};
use std::alloc::{AllocError, Global};

/// What is done to a workspace of a tree. What can't be done does nothing.
#[derive(Clone, Copy, Debug)]
pub enum TreeOperation<'a> {
    /// Makes the workspace, under another one.
    Create(&'a str),
    Remove,
    /// Puts a row with a number at a key.
    Put(i64, i64),
    /// Takes the row at a key away.
    Delete(i64),
    Mark(&'a str),
    Unmark(&'a str),
    RollTo(&'a str),
    RollAll,
    Refresh,
    Merge,
    /// A refresh by the changes, counted before.
    RefreshChanges,
    /// A merge by the changes, counted before.
    MergeChanges,
    /// Settles the row at a key.
    Resolve(i64, Keep),
    Hold,
    Release,
}

fn create(tree: &mut Tree, name: &str, parent: &str) -> Result<(), AllocError> {
    let Some(at) = tree.find(parent) else {
        return Ok(());
    };
    if !good_name(name) || tree.find(name).is_some() {
        return Ok(());
    }
    if tree.len() >= MOST_WORKSPACES || tree.depth(at) >= MOST_LEVELS {
        return Ok(());
    }
    tree.create(name, at)
}

fn write(
    alloc: Global,
    tree: &mut Tree,
    at: usize,
    key: i64,
    row: Option<Row>,
) -> Result<(), AllocError>
    requires { at < length tree.old.list }
{
    let mut changed = ChangeSet::new(alloc);
    changed.set(cell(key), tree.read(at, cell(key)), row.as_ref())?;
    tree.write_all(at, &changed)
}

fn mark(tree: &mut Tree, at: usize, savepoint: &str) -> Result<(), AllocError>
    requires child { 0 < at }
    requires within { at < length tree.old.list }
{
    if !good_name(savepoint) || tree.find_mark(at, savepoint).is_some() {
        return Ok(());
    }
    if tree.saved(at) >= MOST_SAVEPOINTS {
        return Ok(());
    }
    tree.mark(at, savepoint)
}

/// Returns the position of a savepoint among the marks of a workspace.
pub fn find_savepoint(tree: &Tree, at: usize, savepoint: &str) -> Option<usize>
    requires child { 0 < at }
    requires within { at < length tree.now.list }
    ensures { IfSome result (λ mark. is_saved (mark_at (workspace_at tree.now.list at).marks mark) ≡ true) }
{
    tree.find_mark(at, savepoint)
}

fn unmark(tree: &mut Tree, at: usize, savepoint: &str)
    requires child { 0 < at }
    requires within { at < length tree.old.list }
{
    if let Some(mark) = find_savepoint(tree, at, savepoint) {
        tree.unmark(at, mark);
    }
}

fn roll_to(tree: &mut Tree, at: usize, savepoint: &str) -> Result<(), AllocError>
    requires child { 0 < at }
    requires within { at < length tree.old.list }
{
    match find_savepoint(tree, at, savepoint) {
        Some(mark) if !tree.held(at, mark) => tree.roll_to(at, mark),
        _ => Ok(()),
    }
}

/// Does to a leaf what a operation says.
fn act_on_leaf(tree: &mut Tree, at: usize, operation: TreeOperation<'_>)
    requires child { 0 < at }
    requires within { at < length tree.old.list }
{
    if tree.children(at) > 0 {
        return;
    }
    match operation {
        TreeOperation::Remove => tree.remove(at),
        TreeOperation::RollAll => tree.roll_all(at),
        _ => {}
    }
}

fn refresh_changes(tree: &mut Tree, at: usize) -> Result<(), AllocError>
    requires child { 0 < at }
    requires within { at < length tree.old.list }
{
    let changed = tree.changes(at)?;
    tree.refresh_changes(at, &changed)
}

fn merge_changes(tree: &mut Tree, at: usize) -> Result<(), AllocError>
    requires child { 0 < at }
    requires within { at < length tree.old.list }
{
    let changed = tree.changes(at)?;
    tree.merge_changes(at, &changed)
}

fn act_on_child(tree: &mut Tree, at: usize, operation: TreeOperation<'_>) -> Result<(), AllocError>
    requires child { 0 < at }
    requires within { at < length tree.old.list }
{
    match operation {
        TreeOperation::Mark(savepoint) => mark(tree, at, savepoint)?,
        TreeOperation::Unmark(savepoint) => unmark(tree, at, savepoint),
        TreeOperation::RollTo(savepoint) => roll_to(tree, at, savepoint)?,
        TreeOperation::Refresh => tree.rebase(at, Rebase::Refresh)?,
        TreeOperation::Merge => tree.rebase(at, Rebase::Merge)?,
        TreeOperation::RefreshChanges => refresh_changes(tree, at)?,
        TreeOperation::MergeChanges => merge_changes(tree, at)?,
        TreeOperation::Resolve(key, keep) => tree.rebase(at, Rebase::OneRow(cell(key), keep))?,
        TreeOperation::Hold => tree.hold(at),
        TreeOperation::Release => tree.release(at),
        _ => act_on_leaf(tree, at, operation),
    }
    Ok(())
}

/// Does something to the workspace of a name.
pub fn act(
    alloc: Global,
    tree: &mut Tree,
    name: &str,
    operation: TreeOperation<'_>,
) -> Result<(), AllocError> {
    if let TreeOperation::Create(parent) = operation {
        return create(tree, name, parent);
    }
    let Some(at) = tree.find(name) else {
        return Ok(());
    };
    match operation {
        TreeOperation::Put(key, number) => write(
            alloc,
            tree,
            at,
            key,
            Some(row_of(alloc, number)?),
        ),
        TreeOperation::Delete(key) => write(alloc, tree, at, key, None),
        _ if at > 0 => act_on_child(tree, at, operation),
        _ => Ok(()),
    }
}
