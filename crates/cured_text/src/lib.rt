//! Cured programs as text: `print` writes the one spelling of a program, and `read` reads it. docs/cured-text.md has the
//! format.
#![tactic(auto)]

mod instructions;
mod lines;
mod printing;

pub use cured_reading::{CuredFault, CuredLimit, Form, line, read, word};
pub use printing::print;
