//! What a map shows: the rows of a root, the designs over them with what each changes, what a cause is about, which part of the world is seen,
//! and how much detail there is room for. It knows no office and no plan, so drawing doesn't wait for these.
//!
//! - `Designs`: exactly in which order designs are told (those that a cause names first), which these are, their names and colours, what each
//!   changes at a cell and in all, and which is the first that changes a cell.
//! - `Cause` is what is shown of a cause. What it says of a plan is told by `cause_of` of `clr_plan_causes`.
//! - Each call is safe and ends, and no call fails while there is memory. What `MapScene` shows is tested by pictures.
#![tactic(auto)]

mod designs;
mod extents;
mod fields;
mod layouts;
mod scenes;
mod shown_causes;

pub use designs::Designs;
pub use extents::extent_with_row;
pub use fields::Field;
pub use layouts::{BESIDE, EDGE, FOOT, LEFT, PAGE_WIDTH, RIGHT, TOP};
pub use scenes::MapScene;
pub use shown_causes::{Cause, CausePlace, CauseRow, Mark};
