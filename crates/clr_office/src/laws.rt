//! Laws of what is printed, each proved by a function that does nothing.

ghost use Rattle.clr_office.specs.OnePlanInOrder.{OnePlanInOrderLaw};
ghost use Rattle.clr_office.specs.OneSession.{OneAnswerLaw, OneSessionLaw};

/// What is asked of two texts is answered in one way alone, and no input has two sessions: where no
/// command, plan or verdict found no memory, any two prints have one exit status and one list of lines, or
/// one fault. The lines may differ where members are planned in the order in which they are named, since
/// such a plan may be cleared by several certificates.
pub fn inputs_have_one_session()
    ensures answer { OneAnswerLaw }
    ensures session { OneSessionLaw }
{}

/// No merge set has two plans in the order of its members, but for their certificates: where memory is
/// found, any two such plans are cleared, or have one reason, or one order and one cause.
pub fn plans_in_order_are_alike()
    ensures { OnePlanInOrderLaw }
{}
