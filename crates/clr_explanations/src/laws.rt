//! What holds of the paths of remarks.
ghost use Rattle.clr_explanations.specs.Places.{PathsLead, WholePaths};

/// States where the path of a remark leads: to a value of the item, and no step to a value is left out.
pub fn paths_lead_to_values()
    ensures lead { PathsLead }
    ensures whole { WholePaths }
{}
