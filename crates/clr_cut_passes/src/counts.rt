//! How many rows a pass has gone over, and how they stand to a cut.

ghost use Rattle.std.specs.Prelude.{◌≡◌, ◌↔◌, [], IsTrue};
ghost use Rattle.clr_cut_passes.specs.Counts.{CountsOneMore, IsClean, counts_of, together};

use clr_cut_rows::Standing;

/// How many rows a pass has read, and how many of them the cut has, has otherwise, and lacks. No count
/// is above 2^64 - 1.
#[derive(Clone, Copy, Debug, PartialEq, Eq)]
pub struct PassCounts {
    pub read: u64,
    pub had: u64,
    pub others: u64,
    pub lacked: u64,
}

impl PassCounts {
    /// Returns the counts of a pass that has read no row.
    pub fn new() -> PassCounts
        ensures { result ≡ counts_of [] }
    {
        PassCounts {
            read: 0,
            had: 0,
            others: 0,
            lacked: 0,
        }
    }

    /// Counts one more row, by how it stands to the cut.
    pub(crate) fn note(&mut self, standing: Standing)
        ensures { CountsOneMore self.old standing self.new }
    {
        self.read = self.read.saturating_add(1);
        match standing {
            Standing::Has => self.had = self.had.saturating_add(1),
            Standing::HasOther => self.others = self.others.saturating_add(1),
            Standing::Lacks => self.lacked = self.lacked.saturating_add(1),
            Standing::Beyond => {}
        }
    }

    /// Returns the counts of two passes that went over different rows, as those of one pass.
    pub fn plus(self, other: PassCounts) -> PassCounts
        ensures { result ≡ together self other }
    {
        PassCounts {
            read: self.read.saturating_add(other.read),
            had: self.had.saturating_add(other.had),
            others: self.others.saturating_add(other.others),
            lacked: self.lacked.saturating_add(other.lacked),
        }
    }

    /// Tests whether a cut of so many rows has as many of those that were read, and none of them is one
    /// that it lacks or has otherwise.
    /// For example, a pass that has read 100 rows is clean for a cut of 20 rows if the cut has 20 of them and
    /// needs none of the other 80.
    pub fn is_clean(&self, rows: u64) -> bool
        ensures { IsTrue result ↔ IsClean self.now rows }
    {
        self.had == rows && self.others == 0 && self.lacked == 0
    }
}
