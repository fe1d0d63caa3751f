//! The laws of layers that are printed and given back, proved by functions that do nothing.

ghost use Rattle.clr_desk_layers.specs.ReadBack.{PrintedLayersLaw, SameBaseLaw};

/// Layers that are printed of LIVE, each of another table, change nothing when they are given back, read with any options: the design of them
/// sees LIVE's content, the script that makes it has no edit, and the office whose LIVE has their rows is the office itself.
pub fn printed_layers_change_nothing()
    ensures { PrintedLayersLaw }
{}

/// What is printed of layers that were copied from the office itself is what is printed of them without that.
pub fn a_base_may_be_the_office_itself()
    ensures { SameBaseLaw }
{}
