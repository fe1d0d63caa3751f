//! Laws of layers, each proved by a function that does nothing.

ghost use Rattle.clr_layer_text.specs.ReadBack.{ReadBackLaw};

/// The text of a layer is read as the rows that were written, rounded or not: rows of a table of a schema
/// that fit it, with texts in UTF-8, where no column is called `WKT` beside shapes.
pub fn layer_is_read_back()
    ensures { ReadBackLaw }
{}
