//! Members that wait for one another, or of whom none can be the last.

use crate::searches::{Case, first_wrong};
use std::test::Fail;

/// Each of three waits for the next; each of three helps a need of the two others alone; and each of two waits for the other, while a
/// third is free.
const CIRCLES: [Case; 3] = [
    (3, &[(&[0], &[1]), (&[1], &[2]), (&[2], &[0])], None),
    (
        3,
        &[(&[0, 1], &[2]), (&[1, 2], &[0]), (&[0, 2], &[1])],
        None,
    ),
    (3, &[(&[0], &[2]), (&[2], &[0])], None),
];

#[test]
fn circles_have_no_order(rt: HostRuntime) -> Result<(), Fail> {
    assert_eq!(rt; first_wrong(rt.alloc(), &CIRCLES)?, None);
    Ok(())
}
