//! The words of a call: the table of commands, and what the words ask for.
#![tactic(auto)]

mod arguments;
mod table;
mod words;

pub use table::{Argument, Source, Verb, usage};
pub use words::{Command, NamedFile, WordsFault, command_in};
