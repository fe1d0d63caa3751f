//! What is printed for what was asked, and how it went.

ghost use Rattle.std.specs.Prelude.{◌≡◌, ◌++◌, ◌||◌, false, OnErr, OnOk};
ghost use Rattle.clr_office_reports.specs.Printing.{status_of};

use std::alloc::AllocError;

/// The lines of what was asked, whether something was refused, and whether a command, a plan or a
/// verdict found no memory.
#[derive(Drop)]
pub struct Output {
    pub lines: Vec<u8>,
    pub refused: bool,
    pub lost: bool,
}

impl Output {
    /// Returns the output of lines that refuse nothing.
    pub fn of_lines(lines: Vec<u8>) -> Output
        ensures { result ≡ record { lines = lines; refused = false; lost = false } }
    {
        Output {
            lines,
            refused: false,
            lost: false,
        }
    }

    /// Adds the output of what was asked next. If memory runs out, nothing changes.
    pub fn append(&mut self, output: &Output) -> Result<(), AllocError>
        ensures lines { OnOk result (self.new.lines.items ≡ self.old.lines.items ++ output.now.lines.items) }
        ensures refused { OnOk result (self.new.refused ≡ (self.old.refused || output.now.refused)) }
        ensures lost { OnOk result (self.new.lost ≡ (self.old.lost || output.now.lost)) }
        ensures kept_lines { OnErr result (self.new.lines.items ≡ self.old.lines.items) }
        ensures kept_flags { OnErr result ((self.new.refused ≡ self.old.refused) × (self.new.lost ≡ self.old.lost)) }
    {
        self.lines.extend_from_slice(output.lines.as_slice())?;
        self.refused = self.refused || output.refused;
        self.lost = self.lost || output.lost;
        Ok(())
    }

    /// Returns the exit status: 0 where all was done, 1 where something was refused, and 3 where
    /// something found no memory.
    pub fn status(&self) -> u8
        ensures { result ≡ status_of self.now.refused self.now.lost }
    {
        if self.lost {
            3
        } else if self.refused {
            1
        } else {
            0
        }
    }
}
