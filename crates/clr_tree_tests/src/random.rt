//! Random operations on a tree, and the same ones on a tree of whole copies.

use crate::plain_trees::PlainTree;
use clr_call_test_kit::Dice;
use clr_tree::{Keep, Tree};
use clr_tree_test_kit::{
    SAME_DEEDS, TreeOperation, act, counts_text, deed_in, delta_tree, tree_text,
};
use std::alloc::{AllocError, Global};
use std::process::Abort;
use std::test::Fail;

/// How many operations are to change a tree.
const DEEDS: usize = 10_000;

/// The most throws, some of which change nothing.
const MOST_THROWS: usize = 40_000;

const NAMES: [&str; 12] = [
    "LIVE", "A", "B", "C", "D", "E", "F", "G", "H", "I", "J", "K",
];

/// Returns what is done next, and to which workspace. Savepoints have the names of the first workspaces.
fn operation(dice: &mut Dice) -> (&'static str, TreeOperation<'static>) {
    let name = NAMES[dice.throw(12) as usize];
    let other = NAMES[dice.throw(12) as usize];
    let savepoint = NAMES[dice.throw(4) as usize + 1];
    let key = dice.throw(8) as i64;
    let number = dice.throw(3) as i64 + 1;
    let keep = match dice.throw(3) {
        0 => Keep::Parent,
        1 => Keep::Child,
        _ => Keep::Base,
    };
    let operation = match dice.throw(18) {
        0 | 1 | 2 => TreeOperation::Create(other),
        3 => TreeOperation::Remove,
        4 | 5 | 6 => TreeOperation::Put(key, number),
        7 => TreeOperation::Delete(key),
        8 | 9 => TreeOperation::Mark(savepoint),
        10 => TreeOperation::Unmark(savepoint),
        11 => TreeOperation::RollTo(savepoint),
        12 => TreeOperation::RollAll,
        13 => TreeOperation::Refresh,
        14 => TreeOperation::Merge,
        15 => TreeOperation::Resolve(key, keep),
        16 => TreeOperation::Hold,
        _ => TreeOperation::Release,
    };
    (name, operation)
}

/// Returns the tree of whole copies after lines.
fn plain_tree_after(alloc: Global, lines: &'static str) -> Result<PlainTree, AllocError> {
    let mut plain = PlainTree::new(alloc, [0, 1, 1, 1, 0, 0, 0, 0])?;
    for line in lines.lines() {
        if let Some((name, operation)) = deed_in(line) {
            plain.act(name, operation)?;
        }
    }
    Ok(plain)
}

/// A tree, one of whole copies beside it, and what both were when they were last looked at.
#[derive(Drop)]
struct Pair {
    tree: Tree,
    plain: PlainTree,
    last: String,
}

impl Pair {
    /// Trees of parts with neutral differences.
    fn new(alloc: Global) -> Result<Pair, AllocError> {
        let tree = delta_tree(alloc)?;
        Ok(Pair {
            last: tree_text(alloc, &tree)?,
            tree,
            plain: plain_tree_after(alloc, SAME_DEEDS)?,
        })
    }

    /// Does something to both, and sweeps.
    fn act(
        &mut self,
        alloc: Global,
        name: &'static str,
        operation: TreeOperation<'static>,
    ) -> Result<(), AllocError> {
        act(alloc, &mut self.tree, name, operation)?;
        self.plain.act(name, operation)?;
        self.tree.sweep();
        Ok(())
    }

    /// As many differences are stored as are needed.
    fn check_counts(&self, rt: &impl Abort, alloc: Global) -> Result<(), Fail> {
        let counts = counts_text(alloc, &self.tree)?;
        let needed = self.plain.counts_text()?;
        assert_eq!(rt; counts.as_str(), needed.as_str());
        Ok(())
    }

    /// Returns what both are, which is to be the same.
    fn text(&self, rt: &impl Abort, alloc: Global) -> Result<String, Fail> {
        let text = tree_text(alloc, &self.tree)?;
        let plain = self.plain.text()?;
        assert_eq!(rt; text.as_str(), plain.as_str());
        Ok(text)
    }

    /// Does something to both, and says whether it changed anything.
    fn step(&mut self, rt: &impl Abort, alloc: Global, dice: &mut Dice) -> Result<bool, Fail> {
        let (name, operation) = operation(dice);
        self.act(alloc, name, operation)?;
        self.check_counts(rt, alloc)?;
        let text = self.text(rt, alloc)?;
        let changes = text.as_str() != self.last.as_str();
        self.last = text;
        Ok(changes)
    }
}

/// Returns how many operations change a tree, which whole copies follow.
fn count_changes(
    rt: &impl Abort,
    alloc: Global,
    pair: &mut Pair,
    seed: u64,
) -> Result<usize, Fail> {
    let mut dice = Dice::new(seed);
    let mut changes = 0;
    for _ in 0..MOST_THROWS {
        if changes == DEEDS {
            break;
        }
        if pair.step(rt, alloc, &mut dice)? {
            changes = changes.saturating_add(1);
        }
    }
    Ok(changes)
}

#[test]
fn is_as_whole_copies_are(rt: HostRuntime) -> Result<(), Fail> {
    let mut pair = Pair::new(rt.alloc())?;
    let changes = count_changes(&rt, rt.alloc(), &mut pair, 11)?;
    assert_eq!(rt; changes, DEEDS);
    Ok(())
}
