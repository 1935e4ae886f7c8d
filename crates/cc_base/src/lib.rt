//! The words that every crate of `ccured` shares: places in a text, numbers of nodes, types and
//! functions, the kinds of pointers, the names of checks, rules and limits, and the faults that a
//! text can be refused with.
#![tactic(auto)]

mod fault;
mod kind;
mod number;
mod place;

pub use fault::{Check, Fault, Limit, NoMemory, Rule};
pub use kind::{Kind, Kinds};
pub use number::{FnId, NodeId, TypeId};
pub use place::Place;

#[cfg(test)]
mod tests;
