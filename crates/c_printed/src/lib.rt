//! The nodes of a typed unit whose kinds are printed: pointer types where they are written, and the homes of variables.
#![tactic(auto)]

mod found;
mod leaves;
mod printing;
mod sorting;
mod statements;

pub use sorting::printed_nodes;
