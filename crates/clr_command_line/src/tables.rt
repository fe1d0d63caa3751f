//! Programs and their subcommands, as tables.

/// An argument of a subcommand: its name, what help calls its value where it is an option that has one, and what help says about it.
#[derive(Clone, Copy, Debug)]
pub enum Argument<'a> {
    /// A value, which is required.
    Value(&'a str, &'a str),
    /// Values at the end, none or more.
    Values(&'a str, &'a str),
    /// Values at the end, one or more.
    RequiredValues(&'a str, &'a str),
    /// An option with one value.
    ValueOption(&'a str, &'a str, &'a str),
    /// An option without a value.
    Flag(&'a str, &'a str),
}

/// A subcommand of a program.
#[derive(Clone, Copy, Debug)]
pub struct Subcommand<'a> {
    pub name: &'a str,
    /// The line of help about it.
    pub about: &'a str,
    /// What its own help says last: what it prints, and with which status it ends.
    pub prints: &'a str,
    /// Its arguments. Values are read in this order.
    pub arguments: &'a [Argument<'a>],
}

/// A program, which requires one of its subcommands.
#[derive(Clone, Copy, Debug)]
pub struct ProgramTable<'a> {
    pub name: &'a str,
    pub version: &'a str,
    /// The line of help about it.
    pub about: &'a str,
    /// What its help says last.
    pub statuses: &'a str,
    /// Its subcommands, in the order of its help.
    pub subcommands: &'a [Subcommand<'a>],
}

/// The file of the office text, the first argument of most subcommands.
pub const DATABASE: Argument<'static> = Argument::Value(
    "DB",
    "The file of the office text, which is JSON",
);
