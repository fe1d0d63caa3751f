//! The rows of a root, and the designs over them.

use crate::designs::Designs;
use clr_rows::{Schema, Sheet};
use std::alloc::Global;

/// The rows of a root, and the designs that are to be merged into it.
#[derive(Clone, Copy)]
pub struct Field<'a> {
    pub alloc: Global,
    pub schema: &'a Schema,
    pub rows: &'a Sheet,
    pub designs: &'a Designs<'a>,
}
