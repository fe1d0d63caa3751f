//! The subcommands of the second program, as they are described to `clap`: their words, values, options and help.
//!
//! - `whole_command`: exactly the command line that `program` says. Texts of help are tested only.
#![tactic(auto)]

mod command;
mod helps;

pub use command::whole_command;
