//! What sentences are made of.

ghost use Rattle.std.specs.Prelude.{◌≡◌, IfOk, string_bytes};
ghost use Rattle.clr_plan_sentences.specs.Labels.{cell_label};

use crate::labels::add_label;
use clr_engine::Office;
use clr_member_changes::MemberChanges;
use clr_rows::CellId;
use std::alloc::{AllocError, Global};

/// What sentences are made of: an office, and members with their changes.
#[derive(Clone, Copy)]
pub struct Setting<'a> {
    pub alloc: Global,
    pub office: &'a Office,
    pub members: &'a MemberChanges<'a>,
}

impl Setting<'_> {
    /// Returns a cell as `main 20`.
    pub fn cell_label(&self, cell: CellId) -> Result<String, AllocError>
        ensures { IfOk result (λ text. string_bytes text ≡ cell_label self.now.office.now.schema cell) }
    {
        let mut text = String::new(self.alloc);
        add_label(&mut text, self.office.schema(), cell)?;
        Ok(text)
    }
}
