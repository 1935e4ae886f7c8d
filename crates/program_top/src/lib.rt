//! `ccured`, which does all that the program does.
#![tactic(auto)]

mod files;
mod making;
mod running;
mod top;
mod writing;

pub use top::ccured;
