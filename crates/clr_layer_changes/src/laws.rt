//! The law of layers that are given back, proved by a function that does nothing.

ghost use Rattle.clr_layer_changes.specs.ReadBack.{LayersOfLiveLaw};

/// Layers of LIVE's rows, each of another table, ask for LIVE's own content, and no edit leads to it. They may be of all tables or of a few,
/// may be given in any order, and are read with any options.
pub fn layers_of_live_change_nothing()
    ensures { LayersOfLiveLaw }
{}
