//! What is found in a text.

/// What is found in a text that is asked about.
#[derive(Debug, Drop)]
pub enum Why {
    /// The text can be read, and where only an office is asked about, nothing is broken in it.
    NoFault,
    /// The text is an office in which needs are broken, and it names each of them as known: the lines that count them.
    OldErrors(Vec<u8>),
    /// The text is an office in which a need is broken that it doesn't name as known: the lines that say so.
    Unheld(Vec<u8>),
    /// The text can't be read, or the office that it is over can't: the lines of the fault.
    Faulty(Vec<u8>),
}
