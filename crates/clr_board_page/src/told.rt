//! What is said of designs.

use clr_board::Turn;
use clr_clash_helpers::HelpedClash;
use std::alloc::Global;

/// What is said of designs: their root, their names, their clashes with who helps these, and who goes before whom.
#[derive(Clone, Copy)]
pub(crate) struct Told<'a> {
    pub(crate) alloc: Global,
    pub(crate) root: &'a str,
    pub(crate) names: &'a [&'a str],
    pub(crate) helped: &'a [HelpedClash<'a>],
    pub(crate) turns: &'a [Turn],
}
