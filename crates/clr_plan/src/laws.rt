//! Laws of plans, each proved by a function that does nothing.

ghost use Rattle.clr_plan.specs.Certificates.{ReadablePlanLaw};
ghost use Rattle.clr_plan.specs.OnePlan.{OnePlanLaw};

/// No merge set has two plans: where memory is found, any two plans of a merge set have one reason, one order
/// and one cause, or one certificate.
pub fn plans_of_a_merge_set_are_alike()
    ensures { OnePlanLaw }
{}

/// In every office the certificate of a plan that is cleared has good names, cells that the schema names, and
/// parts of paths; so its text is read as the certificate.
pub fn cleared_plans_are_readable()
    ensures { ReadablePlanLaw }
{}
