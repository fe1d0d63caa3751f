//! What both programs share with the system that runs them: words of the command line, files, standard error and exit statuses.
//!
//! - `words`, `has_words`: the words of the command line; no contract says what they are. `texts_of_words`: exactly these as texts.
//! - `read_input` [`whole`, `good`, `fault`] reads a whole input, up to `MOST_INPUT_BYTES` (`inputs_have_a_limit`).
//! - `read_files` [`each`, `within`, `fault`]: one text for each file, none too long, or which file has a fault; `text_at`: that at a
//!   position, and `file_name` its name. What a file holds no contract says.
//! - `RunFault` says why a run ends without an exit status; `FileFault` says also of which file.
//! - `end_run`, `print_fault`, `print_parser_message` [`either`, `bad`]: the exit status. `input_remark`: exactly the line that names an
//!   input behind its fault, and the limit where it is too long; `put_input_remark` [`line`, `keeps`] writes it. What else is printed no
//!   contract says.
#![tactic(auto)]

mod arguments;
mod faults;
mod files;
mod reading;
mod refusals;

pub use arguments::{has_words, texts_of_words, words};
pub use faults::{FileFault, RunFault};
pub use files::{file_name, read_files, text_at};
pub use reading::{MOST_INPUT_BYTES, inputs_have_a_limit, read_input};
pub use refusals::{
    BAD_WORDS, end_run, exit_statuses, input_remark, print_fault, print_parser_message,
    put_input_remark,
};
