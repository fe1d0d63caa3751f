//! Workspaces on three levels, which operations change.

use crate::scripts::{act_lines, tree_after};
use crate::texts::{counts_text, news_text};
use std::alloc::{AllocError, Global};

/// Three levels with savepoints: C under B under A, each with rows of its own. A lags behind LIVE,
/// and B behind A.
pub const THREE_LEVELS: &str = "A create LIVE
A mark s
A put 1 2
A delete 2
B create A
B mark s
B put 4 3
B mark t
B put 1 5
C create B
C mark s
C put 5 6
C delete 3
B mark u
B put 2 7
A mark t
A put 6 8
LIVE put 3 9
LIVE put 7 1
";

/// What these are.
const THREE_LEVELS_TEXT: &str = "LIVE now 1=1 2=1 3=9 7=1
A under LIVE base 1=1 2=1 3=1 now 1=2 3=1 6=8 saved s 1=1 2=1 3=1 child B saved t 1=2 3=1
B under A base 1=2 3=1 now 1=5 2=7 3=1 4=3 saved s 1=2 3=1 saved t 1=2 3=1 4=3 child C saved u 1=5 3=1 4=3
C under B base 1=5 3=1 4=3 now 1=5 4=3 5=6 saved s 1=5 3=1 4=3
";

/// Returns what is new in three levels after operations and a sweep.
pub fn news_after(alloc: Global, operations: &str) -> Result<String, AllocError> {
    let mut tree = tree_after(alloc, THREE_LEVELS)?;
    act_lines(alloc, &mut tree, operations)?;
    tree.sweep();
    news_text(alloc, &tree, THREE_LEVELS_TEXT)
}

/// Returns how many differences are stored of the workspaces under LIVE after operations and a sweep.
pub fn counts_after(alloc: Global, operations: &str) -> Result<String, AllocError> {
    let mut tree = tree_after(alloc, operations)?;
    tree.sweep();
    counts_text(alloc, &tree)
}
