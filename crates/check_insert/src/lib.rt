//! The instructions of the checks of cured code. What they are stands in `check_forms`; here they are made.
#![tactic(auto)]

mod asking;
mod checks;
mod condition;
mod conditions;
mod draft;
mod ends;
mod line;
mod pairs;
mod pieces;
mod rows;

pub use checks::put_checks;
pub use draft::Draft;
pub use line::SlotLine;
pub use pieces::{choose, fail, keep, push, put, put_lines, refuse, start};
