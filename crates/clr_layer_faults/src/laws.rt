//! The law of faults and refusals, proved by a function that does nothing.

ghost use Rattle.clr_layer_faults.specs.Refusals.{FaultsTellRefusals};

/// No fault is found in a layer of UTF-8 exactly where the layer isn't refused, or is refused only since a row gets no key.
pub fn faults_tell_refusals()
    ensures { FaultsTellRefusals }
{}
