//! Laws of passes over tables, proved by a function that does nothing.

ghost use Rattle.clr_cut_streams.specs.Laws.{PartsLaw, TablesLaw};

/// Where passes over tables go over all rows of a whole, each once, print none of them, find none otherwise, and have
/// as many of the cut as it has rows, the rows of the cut are one of that whole; and at each cell that the text of the
/// cut lists they are as the whole. What passes over two parts of a table told is together what one over all its rows
/// tells.
pub fn passes_show_a_cut()
    ensures tables { TablesLaw }
    ensures parts { PartsLaw }
{}
