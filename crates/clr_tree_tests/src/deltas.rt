//! Parts by their differences, of which some are neutral, beside operations that make the same workspaces.

use clr_tree::Tree;
use clr_tree_test_kit::{SAME_DEEDS, delta_tree, news_text, tree_after};
use std::alloc::Global;
use std::process::Abort;
use std::test::Fail;

/// What the operations make.
const SAME_TEXT: &str = "LIVE now 1=1 2=1 3=1
A under LIVE base 1=1 2=5 3=1 now 1=1 2=5 3=2 saved s 1=1 2=5 3=7 child B kept
B under A base 1=1 2=5 3=2 now 1=3 3=2 kept
";

/// Checks that a tree has the workspaces of the parts, and so many differences.
fn check(rt: &impl Abort, alloc: Global, tree: &Tree, counts: &str) -> Result<(), Fail> {
    let text = news_text(alloc, tree, SAME_TEXT)?;
    assert_eq!(rt; text.as_str(), counts);
    Ok(())
}

#[test]
fn sweeps_neutral_differences(rt: HostRuntime) -> Result<(), Fail> {
    let mut tree = delta_tree(rt.alloc())?;
    check(&rt, rt.alloc(), &tree, "stored 6 4")?;
    tree.sweep();
    check(&rt, rt.alloc(), &tree, "stored 2 2")
}

#[test]
fn makes_no_neutral_differences(rt: HostRuntime) -> Result<(), Fail> {
    let tree = tree_after(rt.alloc(), SAME_DEEDS)?;
    check(&rt, rt.alloc(), &tree, "stored 2 2")
}
