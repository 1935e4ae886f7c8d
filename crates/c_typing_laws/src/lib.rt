//! Laws of the definitions, each the contract of a function that does nothing.
#![tactic(auto)]

pub mod checking;
pub mod declarations;
pub mod expressions;
pub mod held;
pub mod numbers;
pub mod refusals;
