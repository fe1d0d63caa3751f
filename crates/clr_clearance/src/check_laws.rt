//! Laws of how verdicts and runs come about, each proved by a function that does nothing.

ghost use Rattle.clr_clearance.specs.CheckLaws.{AllJudgedLaw, FirstJudgedLaw, OneMoreLaw};
ghost use Rattle.clr_clearance.specs.Examples.{FaultExample};

/// Where each of the touched needs, listed, has an entry that covers it, the entries cover all
/// touched needs. The first of the list that no entry covers is the least such need.
pub fn needs_are_judged_in_order()
    ensures all { AllJudgedLaw }
    ensures first { FirstJudgedLaw }
{}

/// A list of quiet commands with the replies to them, and then one more quiet command with its
/// reply, is again such a list.
pub fn quiet_answers_grow()
    ensures { OneMoreLaw }
{}

/// Tests of names in an office of three workspaces are answered as their definitions compute.
pub fn faults_of_examples()
    ensures { FaultExample }
{}
