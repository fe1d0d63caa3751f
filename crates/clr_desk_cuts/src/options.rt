//! How a table is held against a cut.

use clr_reach::Aim;

/// How a table is held against a cut: what the cut is for, and whether coordinates finer than a millimetre are
/// rounded.
#[derive(Clone, Copy, Debug, PartialEq, Eq)]
pub struct ReachOptions {
    pub aim: Aim,
    pub rounded: bool,
}
