//! Texts cut at a mark.

ghost use Rattle.std.specs.Prelude.{◌≡◌, ◌<◌, IfOk, map, option_map};
ghost use Rattle.clr_layer_text.specs.Pieces.{comma, contains_byte, cut_of, is_blank, pieces_of, spaced_words_of};

use std::alloc::{AllocError, Global};

/// Returns what stands before and behind the first such mark of a text.
#[tactic(auto, unfolding(crate::specs::Pieces::cut_of))]
pub(crate) fn cut(text: &str, mark: char) -> Option<(&str, &str)>
    requires { mark < 128 }
    ensures { option_map (λ parts. (parts.0.now, parts.1.now)) result ≡ cut_of mark text.now }
{
    text.split_once(mark)
}

/// Returns whether such a mark stands in a text.
pub(crate) fn contains_byte(text: &str, mark: u8) -> bool
    ensures { result ≡ contains_byte mark text.now }
{
    text.as_bytes().iter().any(|byte| *byte == mark)
}

/// Returns whether a text has no other byte than spaces.
pub(crate) fn is_blank(text: &str) -> bool
    ensures { result ≡ is_blank text.now }
{
    text.as_bytes().iter().all(|byte| *byte == b' ')
}

/// Returns the pieces of a text between commas, one more than there are commas.
pub(crate) fn pieces<'a>(alloc: Global, text: &'a str) -> Result<Vec<&'a str>, AllocError>
    ensures { IfOk result (λ v. map (λ piece. piece.now) v.items ≡ pieces_of comma text.now) }
{
    text.split(',').collect(alloc)
}

/// Returns the words of a text: what stands between its spaces.
pub(crate) fn words<'a>(alloc: Global, text: &'a str) -> Result<Vec<&'a str>, AllocError>
    ensures { IfOk result (λ v. map (λ word. word.now) v.items ≡ spaced_words_of text.now) }
{
    text.split(' ')
        .filter(|word| !word.is_empty())
        .collect(alloc)
}
