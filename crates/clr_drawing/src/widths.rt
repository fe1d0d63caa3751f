//! How wide words are, as far as it can be told without a font.

use clr_svg::Pixels;

/// Returns how wide a character is, in hundredths of the height of its font.
fn width_of(character: char) -> i64 {
    match character {
        'i' | 'l' | 'j' | '.' | ',' | '\'' | '|' | ':' | ' ' => 30,
        't' | 'f' | 'r' | '(' | ')' | '/' | '-' => 40,
        'm' | 'w' | 'M' | 'W' => 90,
        'A'..='Z' => 72,
        _ => 60,
    }
}

/// Returns about how wide words are in letters of this size, and seldom less.
pub fn words_width(words: &str, size: Pixels) -> Pixels {
    let mut width = 0i64;
    for character in words.chars() {
        width = width.saturating_add(width_of(character));
    }
    Pixels::of_tenths(size.tenths.saturating_mul(width) / 100)
}
