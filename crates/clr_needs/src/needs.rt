//! Versions of rows, how long they live, and needs by their versions.

ghost use Rattle.std.specs.Prelude.{◌≡◌};
ghost use Rattle.clr_needs.specs.Needs.{ask_of, need_of};

use clr_rows::CellId;
use clr_rules::Ask;

/// How long a version lives: always, once a member is merged (With), or until then (Without).
/// Members are numbered by position.
#[derive(Clone, Copy, Debug, PartialEq, Eq)]
pub enum Life {
    Always,
    With(u16),
    Without(u16),
}

/// The old row of a cell, or the new one. Versions are ordered by cell, old before new.
#[derive(Clone, Copy, Debug, PartialEq, Eq, PartialOrd, Ord)]
pub struct VersionId {
    pub cell: CellId,
    pub fresh: bool,
}

/// A rule with one or two versions that call it, and the parts of them that it asks of: both
/// numbers are 1 but for a crossing of paths. Needs are ordered by rule, first version and second
/// version, and then by the part of each.
#[derive(Clone, Copy, Debug, PartialEq, Eq, PartialOrd, Ord)]
pub struct Need {
    pub rule: u16,
    pub first: VersionId,
    pub second: Option<VersionId>,
    pub first_part: u16,
    pub second_part: u16,
}

impl Need {
    /// Returns the need that an ask makes of these versions.
    pub fn new(ask: Ask, first: VersionId, second: Option<VersionId>) -> Need
        ensures { result ≡ need_of ask first second }
    {
        Need {
            rule: ask.rule,
            first,
            second,
            first_part: ask.first_part,
            second_part: ask.second_part,
        }
    }

    /// Returns what the need asks of its subjects.
    pub fn ask(&self) -> Ask
        ensures { result ≡ ask_of self.now }
    {
        Ask {
            rule: self.rule,
            first_part: self.first_part,
            second_part: self.second_part,
        }
    }
}
