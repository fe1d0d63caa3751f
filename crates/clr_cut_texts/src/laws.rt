//! The laws of cuts as texts, proved by a function that does nothing.

ghost use Rattle.clr_cut_texts.specs.Laws.{IsPlain, MarkLaw, ReadsBack};

/// What is written of a cut is read as the office text that it was written of, and nests at most 127 levels and has no floats. It is marked, and what is
/// written of an office isn't.
pub fn cuts_are_read_back()
    ensures again { ReadsBack }
    ensures plain { IsPlain }
    ensures marked { MarkLaw }
{}
