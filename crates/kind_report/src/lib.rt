//! The report on the kinds of a program: a line for each pointer type of its text, and one for each variable whose
//! home is WILD (CCured, TOPLAS 2005).
#![tactic(auto)]

mod counts;
mod lines;

pub use counts::{PointerCounts, count_pointers};
pub use lines::report;

#[cfg(test)]
mod tests;
