//! What the bytes of a run are read from and written to, and the line that parts an input in two.
//!
//! - `Source` and `Sink` are what a run reads from and writes to. Each shows its bytes, where it can
//!   tell them, and whether a call of it has failed so far: an error makes that true, and what
//!   succeeds leaves it.
//! - `Text` and `Page`, over memory, tell their bytes; a `put` within the room of a page succeeds,
//!   and one past it puts nothing on the page. `Port` is over any reader or writer of `std`, and
//!   tells what that one tells.
//! - `show_lines` and `show_on_one_line`: a text with a blank in place of each character that a terminal would obey and not show, as an
//!   escape, or what turns the direction of a text. What they make is showable, and what is showable is left as it is
//!   (`shown_texts_are_showable`).
//! - `Screen` is a sink that shows texts so on another [`shows`].
//! - `split_at_separator`: the text before the first line that is `---` and the text after that
//!   line, or none where no line is.
#![tactic(auto)]

mod devices;
mod memory;
mod ports;
mod screens;
mod separator;
mod shown;

pub use devices::{DeviceFault, Sink, Source};
pub use memory::{Page, Text};
pub use ports::Port;
pub use screens::Screen;
pub use separator::split_at_separator;
pub use shown::{show_lines, show_on_one_line, shown_texts_are_showable};
