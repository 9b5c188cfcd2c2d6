//! What the words that a call of the program is given ask for: a task, with the names of what it reads, and how a text of it is
//! parsed.
#![tactic(auto)]

mod arguments;
mod asking;
mod command;
mod cutting;
mod fault;
mod options;
mod values;
mod words;

pub use command::Command;
pub use fault::WordFault;
pub use options::{RunOptions, Want};
pub use words::command_of;
