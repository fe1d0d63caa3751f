//! The kinds of geometry that WKT names.

ghost use Rattle.std.specs.Prelude.{◌≡◌, map};
ghost use Rattle.clr_layer_text.specs.Wkt.{geometry_by, geometry_of, has_both, has_height, has_measure, is_curve, is_not_flat, same_letters};

use crate::faults::LayerFault;

/// A kind of geometry that can be the shape of a row.
#[derive(Clone, Copy, Debug)]
pub(crate) enum Geometry {
    Point,
    Line,
    Points,
    Lines,
}

/// Returns whether two words are one, small and capital letters being the same.
fn same_letters(word: &str, other: &str) -> bool
    ensures { result ≡ same_letters word.now other.now }
{
    word.eq_ignore_ascii_case(other)
}

/// Returns whether a word names a kind that may have curves.
fn is_curve(word: &str) -> bool
    ensures { result ≡ is_curve word.now }
{
    same_letters(word, "CIRCULARSTRING")
        || same_letters(word, "COMPOUNDCURVE")
        || same_letters(word, "MULTICURVE")
        || same_letters(word, "CURVEPOLYGON")
}

/// Returns whether a word names a kind whose places have a height.
fn has_height(word: &str) -> bool
    ensures { result ≡ has_height word.now }
{
    same_letters(word, "POINTZ")
        || same_letters(word, "LINESTRINGZ")
        || same_letters(word, "MULTIPOINTZ")
        || same_letters(word, "MULTILINESTRINGZ")
}

/// Returns whether a word names a kind whose places have a measure.
fn has_measure(word: &str) -> bool
    ensures { result ≡ has_measure word.now }
{
    same_letters(word, "POINTM")
        || same_letters(word, "LINESTRINGM")
        || same_letters(word, "MULTIPOINTM")
        || same_letters(word, "MULTILINESTRINGM")
}

/// Returns whether a word names a kind whose places have a height and a measure.
fn has_both(word: &str) -> bool
    ensures { result ≡ has_both word.now }
{
    same_letters(word, "POINTZM")
        || same_letters(word, "LINESTRINGZM")
        || same_letters(word, "MULTIPOINTZM")
        || same_letters(word, "MULTILINESTRINGZM")
}

/// Returns whether a word names a kind whose places have more than two coordinates.
fn is_not_flat(word: &str) -> bool
    ensures { result ≡ is_not_flat word.now }
{
    has_height(word) || has_measure(word) || has_both(word)
}

/// Returns the geometry that a word names. Fails with `Curve` where it may have curves, with `NotFlat`
/// where it has more than two coordinates, and with `NotWkt` for any other word.
fn geometry_of(word: &str) -> Result<Geometry, LayerFault>
    ensures { result ≡ geometry_of word.now }
{
    if same_letters(word, "POINT") {
        Ok(Geometry::Point)
    } else if same_letters(word, "LINESTRING") {
        Ok(Geometry::Line)
    } else if same_letters(word, "MULTIPOINT") {
        Ok(Geometry::Points)
    } else if same_letters(word, "MULTILINESTRING") {
        Ok(Geometry::Lines)
    } else if is_curve(word) {
        Err(LayerFault::Curve)
    } else if is_not_flat(word) {
        Err(LayerFault::NotFlat)
    } else {
        Err(LayerFault::NotWkt)
    }
}

/// Returns the geometry of the words before the first `(`. Fails as `geometry_of` does, with `NotWkt` where
/// there is no word, and with `NotFlat` where there is a second one.
pub(crate) fn geometry_by(words: &[&str]) -> Result<Geometry, LayerFault>
    ensures { result ≡ geometry_by (map (λ word. word.now) words.now) }
{
    match words {
        [] => Err(LayerFault::NotWkt),
        [word] => geometry_of(word),
        [_, _, ..] => Err(LayerFault::NotFlat),
    }
}
