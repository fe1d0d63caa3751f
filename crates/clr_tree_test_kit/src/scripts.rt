//! Deeds as texts. A line has the name of a workspace, a word, and what belongs to it.

use crate::fixtures::numbered_sheet;
use crate::operations::{TreeOperation, act};
use clr_tree::{Keep, Tree};
use std::alloc::{AllocError, Global};

/// Returns the part of a text before a space, and the rest.
fn split_word(text: &str) -> (&str, &str) {
    match text.split_once(" ") {
        Some(parts) => parts,
        None => (text, ""),
    }
}

fn number(text: &str) -> Option<i64> {
    text.parse::<i64>().ok()
}

fn put(text: &str) -> Option<TreeOperation<'_>> {
    let (key, row) = split_word(text);
    Some(TreeOperation::Put(number(key)?, number(row)?))
}

fn resolve(text: &str) -> Option<TreeOperation<'_>> {
    let (key, word) = split_word(text);
    let keep = match word {
        "parent" => Keep::Parent,
        "child" => Keep::Child,
        "base" => Keep::Base,
        _ => return None,
    };
    Some(TreeOperation::Resolve(number(key)?, keep))
}

/// Returns the operation of a word, with what belongs to it.
fn deed_of<'a>(word: &str, rest: &'a str) -> Option<TreeOperation<'a>> {
    match word {
        "create" => Some(TreeOperation::Create(rest)),
        "remove" => Some(TreeOperation::Remove),
        "put" => put(rest),
        "delete" => Some(TreeOperation::Delete(number(rest)?)),
        "mark" => Some(TreeOperation::Mark(rest)),
        "unmark" => Some(TreeOperation::Unmark(rest)),
        "rollto" => Some(TreeOperation::RollTo(rest)),
        "rollall" => Some(TreeOperation::RollAll),
        "refresh" => Some(TreeOperation::Refresh),
        "merge" => Some(TreeOperation::Merge),
        "refresh_changes" => Some(TreeOperation::RefreshChanges),
        "merge_changes" => Some(TreeOperation::MergeChanges),
        "resolve" => resolve(rest),
        "hold" => Some(TreeOperation::Hold),
        "release" => Some(TreeOperation::Release),
        _ => None,
    }
}

/// Returns the name, the word and the rest of a line.
pub fn parts_of(line: &str) -> (&str, &str, &str) {
    let (name, rest) = split_word(line);
    let (word, rest) = split_word(rest);
    (name, word, rest)
}

/// Returns what a line says: a operation, and to the workspace of which name. There is none where it can't be
/// read.
pub fn deed_in(line: &str) -> Option<(&str, TreeOperation<'_>)> {
    let (name, word, rest) = parts_of(line);
    Some((name, deed_of(word, rest)?))
}

/// Does what a line says, which is nothing where it can't be read.
pub fn act_line(alloc: Global, tree: &mut Tree, line: &str) -> Result<(), AllocError> {
    match deed_in(line) {
        Some((name, operation)) => act(alloc, tree, name, operation),
        None => Ok(()),
    }
}

/// Does what lines say, one after another.
pub fn act_lines(alloc: Global, tree: &mut Tree, lines: &str) -> Result<(), AllocError> {
    for line in lines.lines() {
        act_line(alloc, tree, line)?;
    }
    Ok(())
}

/// Returns a tree of LIVE, with a row of number 1 at each of the keys 1 to 3, after lines.
pub fn tree_after(alloc: Global, lines: &str) -> Result<Tree, AllocError> {
    let mut tree = Tree::new(alloc, numbered_sheet(alloc, &[(1, 1), (2, 1), (3, 1)])?)?;
    act_lines(alloc, &mut tree, lines)?;
    Ok(tree)
}
