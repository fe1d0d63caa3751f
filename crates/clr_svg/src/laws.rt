//! Laws of texts, each proved by a function that does nothing.

ghost use Rattle.clr_svg.specs.Escapes.{EscapedTextsAreHarmless};

/// An escaped text is made of references and of bytes that are no markup, and has no character that XML 1.0 forbids.
pub fn escaped_texts_are_harmless()
    ensures { EscapedTextsAreHarmless }
{}
