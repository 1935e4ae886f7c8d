//! Lowering: from a well typed unit to three-address code that means the same.
#![tactic(auto)]

mod lowering;

pub use lowering::lower;
