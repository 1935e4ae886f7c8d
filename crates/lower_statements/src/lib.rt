//! The three-address code of statements. What it is stands in `lower_rules`; here it is made.
#![tactic(auto)]

mod nesting;
mod pieces;
mod switching;
mod walk;

pub use nesting::Nesting;
pub use walk::{block, statement};
