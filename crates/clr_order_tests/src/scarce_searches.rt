//! Searches while memory is wanting.

use crate::searches::{is_found, open_needs};
use clr_call_test_kit::{Hoard, Memory};
use clr_order_search::first_order;
use std::test::Fail;

#[test]
fn a_search_finds_its_order_or_is_refused(rt: HostRuntime) -> Result<(), Fail> {
    let alloc = rt.alloc();
    let needs = open_needs(alloc, &[(&[0], &[1]), (&[1], &[2]), (&[3], &[0])])?;
    let mut memory = Memory::Hoarded(Hoard::take(alloc)?);
    let found = memory.answer(|| first_order(alloc, needs.as_slice(), 4))?;
    assert!(rt; is_found(&found, Some(&[2, 1, 0, 3])));
    Ok(())
}
