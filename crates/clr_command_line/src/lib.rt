//! What the words of a command line ask for.
//!
//! - `ask_of` [`asks`, `takes`]: what is asked, and the files, are what `clap`'s definition of a
//!   simple command finds in the words; where that takes the words, they are refused for want of
//!   memory alone. Texts of help and usage are tested only.
//! - `names`, `is_set`, `database`, `database_with`, `AskFault::of`: what other programs of the same files read
//!   by them.
//! - `command_of`: the command line that a table describes; `with_subcommands`: a command with more subcommands.
#![tactic(auto)]

mod asks;
mod command;
mod described;
mod reading;
mod tables;
mod values;

pub use asks::{Ask, AskFault, Orders};
pub use command::VERSION;
pub use described::{command_of, with_subcommands};
pub use reading::ask_of;
pub use tables::{Argument, DATABASE, ProgramTable, Subcommand};
pub use values::{database, database_with, is_set, names};
