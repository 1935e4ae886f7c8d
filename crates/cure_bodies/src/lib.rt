//! The cured code of bodies: the instructions of three-address code in order, with `if`, blocks and loops. What it is stands in
//! `cure_rules`; here it is made.
#![tactic(auto)]

mod body;
mod held;
mod holding;
mod instrs;
mod noting;
mod points;
mod walk;

pub use body::put_body;
pub use holding::{Holdings, Written};
