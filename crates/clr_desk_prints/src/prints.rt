//! What is printed, and how it ends.
ghost use Rattle.std.specs.Prelude.{◌≡◌, [], false, true, IfOk};
ghost use Rattle.clr_office.specs.Printing.{status_of};
ghost use Rattle.clr_desk_prints.specs.NameHints.{refused_for, status_refused_for, with_lines};
ghost use Rattle.clr_desk_prints.specs.Printing.{AreLinesAsNotes, is_lost_ending, printed, printout_of, status_by, unless_lost};

use clr_office::{Output, RunFault};
use std::alloc::{AllocError, Global};

/// How a print ends.
#[derive(Clone, Copy, Drop)]
pub enum Ending {
    /// All was done.
    Done,
    /// Something was refused, or can't be merged in every order, or a rule doesn't hold.
    Refused,
    /// A text that is asked about has a fault.
    Unread,
    /// A plan, a verdict or a merge found no memory.
    Lost,
    /// A need is broken in LIVE, or in a workspace that is held, and the text of the office doesn't know it.
    Unheld,
    /// Something was refused, and a name was asked for that nothing has.
    Unknown,
}

impl Ending {
    /// Returns the ending of lines that tell whether something was refused and whether something found no
    /// memory.
    fn of(refused: bool, lost: bool) -> Ending
        ensures status { status_by result ≡ status_of refused lost }
        ensures lost { is_lost_ending result ≡ lost }
    {
        if lost {
            Ending::Lost
        } else if refused {
            Ending::Refused
        } else {
            Ending::Done
        }
    }

    /// Returns this ending, where a name was asked for that nothing has.
    fn for_unknown(self) -> Ending
        ensures status { status_by result ≡ status_refused_for true (status_by self) }
        ensures lost { is_lost_ending result ≡ is_lost_ending self }
    {
        match self {
            Ending::Done => Ending::Done,
            Ending::Refused => Ending::Unknown,
            Ending::Unread => Ending::Unread,
            Ending::Lost => Ending::Lost,
            Ending::Unheld => Ending::Unheld,
            Ending::Unknown => Ending::Unknown,
        }
    }
}

/// What is printed: the text on standard output, unless something found no memory, the notes on standard
/// error, and how it ends.
#[derive(Drop)]
pub struct Print {
    pub text: Vec<u8>,
    pub notes: Vec<u8>,
    pub ending: Ending,
}

impl Print {
    /// Returns a text with notes, where something was refused or not, and something found no memory
    /// or not.
    pub fn new(text: Vec<u8>, notes: Vec<u8>, refused: bool, lost: bool) -> Print
        ensures { printed result ≡ printout_of text.items notes.items refused lost }
    {
        Print {
            text,
            notes,
            ending: Ending::of(refused, lost),
        }
    }

    /// Returns a text that refuses nothing, without notes.
    pub fn of_text(alloc: Global, text: Vec<u8>) -> Print
        ensures { printed result ≡ printout_of text.items [] false false }
    {
        Print::new(text, Vec::new(alloc), false, false)
    }

    /// Returns this print with lines behind its notes.
    pub fn with_notes(mut self, lines: &[u8]) -> Result<Print, AllocError>
        ensures { IfOk result (λ p. printed p ≡ with_lines lines.now (printed self)) }
    {
        self.notes.extend_from_slice(lines)?;
        Ok(self)
    }

    /// Returns this print, where a name was asked for that nothing has or none was. Where one was, what is refused ends so.
    pub fn refused_for(self, is_unknown: bool) -> Print
        ensures { printed result ≡ refused_for is_unknown (printed self) }
    {
        if is_unknown {
            Print {
                text: self.text,
                notes: self.notes,
                ending: self.ending.for_unknown(),
            }
        } else {
            self
        }
    }

    /// Returns what goes to standard output: the text, and nothing where something found no memory.
    pub fn shown_text(&self) -> &[u8]
        ensures { result.now ≡ unless_lost (is_lost_ending self.now.ending) self.now.text.items }
    {
        match self.ending {
            Ending::Lost => &[],
            _ => self.text.as_slice(),
        }
    }

    /// Returns the exit status: 0 where all was done, 1 where something was refused, 2 where a text has a
    /// fault, 3 where something found no memory, 4 where a need is broken that isn't known, and 5 where something was
    /// refused and a name was asked for that nothing has.
    pub fn status(&self) -> u8
        ensures { result ≡ status_by self.now.ending }
    {
        match self.ending {
            Ending::Done => 0,
            Ending::Refused => 1,
            Ending::Unread => 2,
            Ending::Lost => 3,
            Ending::Unheld => 4,
            Ending::Unknown => 5,
        }
    }
}

/// Returns the line of a need that is broken in an office and isn't known, as notes without a text.
pub fn notes_of(alloc: Global, answer: Result<Output, RunFault>) -> Result<Print, RunFault>
    ensures { AreLinesAsNotes answer result }
{
    match answer {
        Ok(output) => Ok(Print {
            text: Vec::new(alloc),
            notes: output.lines,
            ending: Ending::Unheld,
        }),
        Err(fault) => Err(fault),
    }
}
