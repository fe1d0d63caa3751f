//! A law of strings of JSON, proved by a function that does nothing.

ghost use Rattle.clr_geojson.specs.Laws.{TextsAreReadBack};

/// Proves that each text that is written as a string of JSON is read as the same text by JSON's grammar.
pub fn texts_are_read_back()
    ensures { TextsAreReadBack }
{}
