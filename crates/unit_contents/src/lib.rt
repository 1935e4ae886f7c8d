//! The objects and sites of a typed unit, statement by statement: all that its parts make and ask.
#![tactic(auto)]

mod copies;
mod walk;

pub use walk::{block, unit};
