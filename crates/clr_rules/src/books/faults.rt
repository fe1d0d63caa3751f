//! Why rules make no book.

ghost use Rattle.std.specs.Prelude.{◌≡◌};
ghost use Rattle.clr_rules.specs.Faults.{rule_fault_number};

/// Why rules make no book: the first reason that applies to the first rule that fails a test.
#[derive(Clone, Copy, Debug, PartialEq, Eq)]
pub enum RuleFault {
    /// The table of a side isn't in the schema.
    NoTable = 1,
    /// A list of columns is empty or names a column that the table hasn't, or `Col::Key` stands in
    /// a `Unique`.
    NoColumn = 2,
    /// The columns of a `Partner` and those of its server differ in number or kinds. A primary key
    /// counts as a whole number.
    KindsDiffer = 3,
    /// The table of a side hasn't the shape that the rule asks for.
    WrongShape = 4,
    /// A distance outside 1 to 1,000,000 millimetres.
    BadDistance = 5,
    /// A filter names a column that its table hasn't, or a literal is of another kind than its
    /// column.
    BadFilter = 6,
    /// More than 64 rules.
    TooMany = 7,
}

impl RuleFault {
    /// Returns the number of a fault.
    pub fn number(self) -> u8
        ensures { result ≡ rule_fault_number self }
    {
        self as u8
    }
}
