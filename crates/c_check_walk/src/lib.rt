//! The walk of the typing of expressions, specifiers and declarators (C99 6.5, 6.7).
#![tactic(auto)]

pub mod checking;
pub mod declarators;
mod enumerators;
mod expression;
mod members;
mod parameters;
mod specifiers;
mod type_names;
pub mod walk;
mod walker;
