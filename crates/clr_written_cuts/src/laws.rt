//! The law of what is written back, proved by a function that does nothing.

ghost use Rattle.clr_written_cuts.specs.Laws.{WrittenBackLaw};

/// Where designs are cleared over a cut, no two of them change one cell, and merges left the rows of the cut with all their changes: if the transaction that
/// leads from the rows of the cut to those rows writes anything into a network, it leaves one that breaks no need but those that it broke before; and where
/// every rule held, every rule holds. The network may have changed since the cut was made: the guards, the look at each row of the cut, and the passes are
/// enough.
pub fn what_is_written_back_breaks_no_more()
    ensures { WrittenBackLaw }
{}
