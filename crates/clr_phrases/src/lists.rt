//! Lists in a sentence.

ghost use Rattle.std.specs.Prelude.{◌≡◌, ◌++◌, OnOk, map, string_bytes};
ghost use Rattle.clr_phrases.specs.Lists.{article_of, names_text};

use std::alloc::AllocError;

/// Adds names with commas between them, and `and` before the last, as `A, B and C`.
pub fn add_names(text: &mut String, names: &[&str]) -> Result<(), AllocError>
    ensures { OnOk result (string_bytes text.new ≡ string_bytes text.old ++ names_text (map (λ name. name.now) names.now)) }
{
    match names {
        [] => Ok(()),
        [name] => text.push_str(name),
        [first, between @ .., last] => {
            text.push_str(first)?;
            for name in between {
                text.push_str(", ")?;
                text.push_str(name)?;
            }
            text.push_str(" and ")?;
            text.push_str(last)
        }
    }
}

/// Returns the indefinite article of a name: `an` before a vowel, and `a` before anything else.
pub fn article(name: &str) -> &'static str
    ensures { result.now ≡ article_of name.now }
{
    match name.as_bytes().first() {
        Some(b'a' | b'e' | b'i' | b'o' | b'u' | b'A' | b'E' | b'I' | b'O' | b'U') => "an",
        _ => "a",
    }
}
