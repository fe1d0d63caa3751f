//! What a rule asks of rows, and needs that no row serves.

ghost use Rattle.std.specs.Prelude.{◌≡◌};
ghost use Rattle.clr_rules.specs.Calls.{plain_ask, is_plain};
ghost use Rattle.clr_rules.specs.Needs.{need_named};

use clr_rows::CellId;

/// What is asked of subjects: the rule of a number, and a part of each subject. Parts are numbered
/// from 1: a segment has one, and a path one from each vertex to the next. Only a `Crossing` is
/// asked of parts; for other rules both numbers are 1.
#[derive(Clone, Copy, Debug, PartialEq, Eq, PartialOrd, Ord)]
pub struct Ask {
    pub rule: u16,
    pub first_part: u16,
    pub second_part: u16,
}

impl Ask {
    /// Returns the ask of whole rows for a rule: both part numbers are 1.
    pub fn plain(rule: u16) -> Ask
        ensures { result ≡ plain_ask rule }
    {
        Ask {
            rule,
            first_part: 1,
            second_part: 1,
        }
    }

    /// Returns whether both part numbers are 1.
    pub(crate) fn is_plain(self) -> bool
        ensures { result ≡ is_plain self }
    {
        self.first_part == 1 && self.second_part == 1
    }
}

/// A broken need: a rule's number, the cells of its subjects, the lesser one first, and the part of
/// each. Broken needs are ordered by rule, first cell, second cell, first part and second part, a
/// need of one row before those of two.
#[derive(Clone, Copy, Debug, PartialEq, Eq, PartialOrd, Ord)]
pub struct Broken {
    pub rule: u16,
    pub first: CellId,
    pub second: Option<CellId>,
    pub first_part: u16,
    pub second_part: u16,
}

impl Broken {
    /// Returns the need that an ask makes of the rows at these cells.
    pub fn new(ask: Ask, first: CellId, second: Option<CellId>) -> Broken
        ensures { result ≡ need_named ask first second }
    {
        Broken {
            rule: ask.rule,
            first,
            second,
            first_part: ask.first_part,
            second_part: ask.second_part,
        }
    }
}
