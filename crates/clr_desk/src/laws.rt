//! A law of what is printed, proved by a function that does nothing.

ghost use Rattle.clr_desk.specs.OneAnswer.{OneDeskAnswerLaw};

/// What is asked of texts is answered in one way alone where it is a certificate, a verdict, a merge, the office in lines, a choice, an
/// office, a design or a script: where no plan, verdict or merge found no memory, any two answers have one text, the same
/// notes and one exit status, or one fault.
pub fn texts_have_one_answer()
    ensures answer { OneDeskAnswerLaw }
{}
