//! The six functions of the C library that every unit knows without a declaration (C99 7.19.7, 7.20.3, 7.20.4).
#![tactic(auto)]

ghost use Rattle.runtime_calls.specs.Laws.{CallsAreNotWrong, AllocationsAreNotWrong};

mod function;
mod naming;

pub use c_tree::Runtime;
pub use function::{RuntimeType, name_of, parameters_of, result_of};
pub use naming::runtime;

/// A runtime function is wrong nowhere on what a well typed call hands it: one that makes a block, with the condition on what is
/// made of it, and each other.
pub fn runtime_functions_are_not_wrong()
    ensures calls { CallsAreNotWrong }
    ensures allocations { AllocationsAreNotWrong }
{}
