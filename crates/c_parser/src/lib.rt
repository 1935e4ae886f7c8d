//! Parses units: declarations, statements and function definitions (C99 6.7 to 6.9).
#![tactic(auto)]

mod blocks;
mod declarations;
mod externals;
mod laws;
mod lookahead;
mod reader;
mod statements;
mod tokens;
mod units;

pub use laws::{one_answer_is_right, units_are_spelled_once};
pub use units::parse_unit;
