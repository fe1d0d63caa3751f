//! Pages of hypertext (HTML), made of typed blocks and written as text: one file without a script, a font or a link, which prints on A4.
//!
//! - `write_page` [`written`]: the text is exactly `html_page_text` of the page, memory aside. Each text of the page is escaped; a picture
//!   goes out as it is given.
#![tactic(auto)]

mod blocks;
mod marks;
mod pages;
mod styles;
mod tables;
mod texts;

pub use blocks::{Block, Tone};
pub use marks::marks_of_pages;
pub use pages::{HtmlPage, Section, write_page};
pub use styles::frame_of_pages;
pub use tables::{Fold, Table, TableRow};
pub use texts::InlineText;
