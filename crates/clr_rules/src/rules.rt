//! The kinds of rules, and their sides.

ghost use Rattle.std.specs.Prelude.{◌≡◌};
ghost use Rattle.std.specs.Option.{option_copied};
ghost use Rattle.clr_rules.specs.Sides.{sides};

use crate::columns::ColumnList;
use crate::sides::Side;

/// An end of a segment, or of a path: its first vertex, or its last.
#[derive(Clone, Copy, Debug, PartialEq, Eq)]
pub enum Tip {
    First,
    Second,
}

/// A rule of the network: wherever its subjects stand, some serving row must stand too. Subjects
/// are one row, or two rows of different cells, in either arrangement.
#[derive(Debug, Drop)]
pub enum Rule {
    /// No two rows of the subject are equal in all columns. No row can serve two that are.
    Unique {
        subject: Side,
        columns: ColumnList,
    },
    /// Each row of the subject has a row of the server whose columns equal its columns, in order.
    /// `Col::Key` stands for the primary key. A row may serve itself.
    Partner {
        subject: Side,
        columns: ColumnList,
        server: Side,
        server_columns: ColumnList,
    },
    /// Each segment or path of the subject has a point of the server at this end.
    EndNode {
        subject: Side,
        tip: Tip,
        server: Side,
    },
    /// Where segments of a and b have a common point, a point of the server is on both of them. No
    /// row serves two segments that overlap. A path is taken part by part.
    Crossing {
        a: Side,
        b: Side,
        server: Side,
    },
    /// No point of a is nearer than d millimetres to a point of b. No row can serve two that are.
    /// The distance d is 1 to 1,000,000.
    Near {
        a: Side,
        b: Side,
        d: i64,
    },
}

/// The sides of a rule by the roles of their rows: a subject alone, the first or the second of two
/// subjects in either arrangement, and a server.
#[derive(Clone, Copy, Debug)]
pub struct Sides<'a> {
    pub alone: Option<&'a Side>,
    pub first: Option<&'a Side>,
    pub second: Option<&'a Side>,
    pub server: Option<&'a Side>,
}

impl Rule {
    /// Returns the sides of the rule.
    pub fn sides(&self) -> Sides<'_>
        ensures alone { option_copied result.alone ≡ (sides self.now).alone }
        ensures first { option_copied result.first ≡ (sides self.now).first }
        ensures second { option_copied result.second ≡ (sides self.now).second }
        ensures server { option_copied result.server ≡ (sides self.now).server }
    {
        let (alone, first, second, server) = match self {
            Rule::Unique { subject, .. } => (None, Some(subject), Some(subject), None),
            Rule::Partner {
                subject,
                server,
                ..
            }
            | Rule::EndNode {
                subject,
                server,
                ..
            } => (Some(subject), None, None, Some(server)),
            Rule::Crossing { a, b, server } => (None, Some(a), Some(b), Some(server)),
            Rule::Near { a, b, .. } => (None, Some(a), Some(b), None),
        };
        Sides {
            alone,
            first,
            second,
            server,
        }
    }
}
