//! Reading cured programs. docs/cured-text.md has the format.
#![tactic(auto)]

mod code;
mod globals;
mod laws;
mod lines;
mod operation;
mod parts_of_text;
mod reading;
mod sections;
mod straight;
mod words;
mod wrong;

pub use laws::{a_spelling_has_no_fault, a_text_has_one_fault};
pub use parts_of_text::{line, word};
pub use reading::read;
pub use wrong::{CuredFault, CuredLimit, Form};
