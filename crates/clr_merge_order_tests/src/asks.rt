//! What is asked of orders while memory is wanting.

use clr_call_test_kit::{Hoard, Scarce};
use clr_engine::Office;
use clr_merge_orders::{MergeOrder, merge_order, merge_order_lines};
use clr_office_test_kit::{members_of, office_after};
use clr_ordered_plans::{certificate_of_order, plan_in_order};
use clr_plan::plan_lines;
use std::alloc::{AllocError, Global};

/// What is asked of members of a root, whose names stand in a line, with the lines that are wanted behind it.
#[derive(Clone, Copy)]
pub(crate) enum Ask {
    /// The order that is found.
    Found,
    /// The plan in the order in which they are named.
    Named,
    /// The plan in the order against that in which they are named.
    Against,
}

/// The lines where no memory is found.
const REFUSED: &[u8] = b"refused 0 OutOfMemory\n";

/// Returns the positions of so many members, the last first.
fn backwards(alloc: Global, count: u16) -> Result<Vec<u16>, AllocError> {
    let mut order = Vec::new(alloc);
    for at in (0..count).rev() {
        order.push(at)?;
    }
    Ok(order)
}

/// Returns the lines of an order that was asked for.
fn found_lines(
    alloc: Global,
    office: &Office,
    (root, members): (&str, &[&str]),
    found: Result<MergeOrder, AllocError>,
) -> Option<Vec<u8>> {
    match found {
        Ok(order) => merge_order_lines(alloc, office.schema(), members, root, &order).ok(),
        Err(_) => Vec::from_slice(alloc, REFUSED).ok(),
    }
}

impl Ask {
    /// Returns the lines that are said with so many bytes of memory.
    fn lines_within(
        self,
        alloc: Global,
        hoard: &mut Hoard,
        budget: usize,
        office: &Office,
        (root, members): (&str, &[&str]),
    ) -> Option<Vec<u8>> {
        let order = backwards(alloc, u16::try_from(members.len()).ok()?).ok()?;
        hoard.leave(budget).ok()?;
        let plan = match self {
            Ask::Found => {
                let found = merge_order(alloc, office, root, members);
                hoard.give_back();
                return found_lines(alloc, office, (root, members), found);
            }
            Ask::Named => plan_in_order(alloc, office, root, members),
            Ask::Against => certificate_of_order(alloc, office, root, members, order.as_slice()),
        };
        hoard.give_back();
        plan_lines(alloc, office.schema(), members, root, &plan).ok()
    }

    /// Returns whether the wanted lines are said with so many bytes of memory: false where memory is wanting, and none where others are.
    fn is_said(
        self,
        alloc: Global,
        hoard: &mut Hoard,
        budget: usize,
        office: &Office,
        (names, wanted): (&str, &str),
    ) -> Option<bool> {
        let (root, members) = members_of(alloc, names)?;
        let asked = (root, members.as_slice());
        let lines = self.lines_within(alloc, hoard, budget, office, asked)?;
        if lines.as_slice() == wanted.as_bytes() {
            Some(true)
        } else if lines.as_slice() == REFUSED {
            Some(false)
        } else {
            None
        }
    }
}

impl Scarce for Ask {
    fn is_right_within(
        &self,
        alloc: Global,
        hoard: &mut Hoard,
        budget: usize,
        setting: &str,
        rest: &str,
    ) -> Option<bool> {
        let parts = rest.split_once("----\n")?;
        match office_after(alloc, setting) {
            Some(office) => self.is_said(alloc, hoard, budget, &office, parts),
            None => None,
        }
    }
}
