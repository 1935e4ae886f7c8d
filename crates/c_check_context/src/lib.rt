//! What is known of names where a part of a unit is judged: their types, homes and linkage (C99 6.2.1, 6.2.2, 6.7).
#![tactic(auto)]

pub mod conflicts;
pub mod context;
pub mod homes;
pub mod linkage;
mod names;
mod objects;

pub use context::Context;
