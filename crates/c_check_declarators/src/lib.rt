//! What specifiers and declarators make of types (C99 6.7).
#![tactic(auto)]

pub mod aggregates;
pub mod derived;
pub mod enumerations;
pub mod homes;
pub mod making;
pub mod places;
pub mod specifying;
pub mod words;
