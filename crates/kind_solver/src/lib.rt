//! The kinds of the nodes of a program, from the list of its constraints (CCured, TOPLAS 2005).
//!
//! `solve` gives each node its kind, and each node that is not SAFE the first site that made it so.
#![tactic(auto)]

mod cause;
mod causes;
mod constraint;
mod gathering;
mod laws;
mod sets;
mod solved;
mod solver;
mod spreading;

pub use cause::Cause;
pub use causes::Causes;
pub use constraint::{Constraint, Why};
pub use laws::{answers_are_unique, order_is_free};
pub use solved::Solved;
pub use solver::solve;
