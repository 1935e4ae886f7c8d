//! The three-address code of expressions and places. What it is stands in `lower_rules`; here it is made.
#![tactic(auto)]

mod accessing;
mod afters;
mod calling;
mod draft;
mod operators;
mod pieces;
mod places;
mod walk;

pub use draft::{Draft, Scope};
pub use operators::put_constant;
pub use pieces::{choose, fail, keep, push, put, refuse, start};
pub use places::{object_in, place_at};
pub use walk::{expr, place};
