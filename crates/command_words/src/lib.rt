//! What the words after the program's name ask for.
#![tactic(auto)]

mod command;
mod fault;
mod numbers;
mod parsed;
mod words;

pub use command::{Action, Command};
pub use fault::WordsFault;
pub use words::command_of;
