//! What the tree answers of LIVE, which has no parent, no base and no marks, beside what it answers of
//! a workspace that has them.

ghost use Rattle.std.specs.Prelude.{◌<◌, length};

use clr_rows::CellId;
use clr_tree::Tree;
use clr_tree_test_kit::{THREE_LEVELS, part_text, rows_text, tree_after};
use std::alloc::{AllocError, Global};
use std::process::Abort;
use std::test::Fail;

/// Returns how many savepoints a workspace has, whether one is named s, whether its first mark is held, whether
/// its base has a row at key 1, all rows of its base, and the workspace as a part.
fn answers_at(alloc: Global, tree: &Tree, at: usize) -> Result<String, AllocError>
    requires { at < length tree.now.list }
{
    let saved = tree.saved(at);
    let found = tree.find_mark(at, "s").is_some();
    let held = tree.held(at, 0);
    let row = tree.base(at, CellId { table: 0, key: 1 }).is_some();
    let base = rows_text(alloc, &tree.base_rows(at)?)?;
    let part = part_text(alloc, &tree.part(at)?)?;
    format!(in alloc; "saved {saved}, found {found}, held {held}, row {row}, base{base}\n{part}")
}

/// Returns what is answered of a workspace of three levels, by its name.
fn check(rt: &impl Abort, alloc: Global, name: &str, wanted: &str) -> Result<(), Fail> {
    let tree = tree_after(alloc, THREE_LEVELS)?;
    let answers = match tree.find(name) {
        Some(at) => answers_at(alloc, &tree, at)?,
        None => String::new(alloc),
    };
    assert_eq!(rt; answers.as_str(), wanted, "{name}");
    Ok(())
}

#[test]
fn live_has_no_base_and_no_marks(rt: HostRuntime) -> Result<(), Fail> {
    check(
        &rt,
        rt.alloc(),
        "LIVE",
        "saved 0, found false, held false, row false, base
LIVE under  base now 1=1 2=1 3=9 7=1 kept
",
    )
}

#[test]
fn a_child_of_live_has_them(rt: HostRuntime) -> Result<(), Fail> {
    check(
        &rt,
        rt.alloc(),
        "A",
        "saved 2, found true, held true, row true, base 1=1 2=1 3=1
A under LIVE base 1=1 2=1 3=1 now 1=2 3=1 6=8 saved s 1=1 2=1 3=1 child B saved t 1=2 3=1
",
    )
}
