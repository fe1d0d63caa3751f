//! Pages of vector graphics (SVG), made of typed elements and written as text.
//!
//! - `write_page` [`written`]: the text is exactly `page_text` of the page, memory aside. It is made of whole elements alone, each with its
//!   end, and of attributes in quotation marks, whose values are numbers, colours and fixed words.
//! - `escaped_texts_are_harmless`: a title, a description or a label is a list of bytes none of which is `<`, `>`, `&`, a quotation mark
//!   or a control character but the end of a line, and of references to these characters. None of its characters is forbidden by XML 1.0.
//! - `add_escaped` and `add_colour` add such a text, and a colour, to a text that is made elsewhere.
//! - `Pixels`: lengths in tenths of a pixel, whose sums, differences and products stop at the limits of 64 bits, and whose halves go towards 0.
//! - `Ink`: `filled`, `drawn`, `over` and `dashed` give exactly the ink that they name.
#![tactic(auto)]

mod colours;
mod elements;
mod escapes;
mod inks;
mod laws;
mod numbers;
mod pages;
mod pixels;

pub use colours::{Colour, add_colour};
pub use elements::{Anchor, Element, Label, PagePoint, PathCommand, Weight};
pub use escapes::add_escaped;
pub use inks::{Dash, Ink, Stroke};
pub use laws::escaped_texts_are_harmless;
pub use pages::{Layer, SvgPage, Window, write_page};
pub use pixels::Pixels;
