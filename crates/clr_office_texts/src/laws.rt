//! A law of drafts, proved by a function that does nothing.

ghost use Rattle.clr_office_texts.specs.Laws.{HeldLaw};

/// Every rule holds in LIVE and in each kept workspace of an office in which `unheld_in` finds no
/// workspace that breaks one.
pub fn rules_hold_where_none_is_unheld()
    ensures { HeldLaw }
{}
