//! A law of the limits of what is said of layers, proved by a function that does nothing.

ghost use Rattle.std.specs.Prelude.{◌≡◌};
ghost use Rattle.clr_layer_reports.specs.declared.counts.TheConstants.{MOST_SHOWN};
ghost use Rattle.clr_layer_reports.specs.declared.sentences.TheConstants.{MOST_NAMES};

/// So many faults of a layer are shown, and so many names of a header are listed.
pub fn limits_of_reports()
    ensures shown { MOST_SHOWN ≡ 100 }
    ensures names { MOST_NAMES ≡ 12 }
{}
