//! What is made of a text of C, pass by pass: its typed unit, its three-address code, its kinds and its cured program.
#![tactic(auto)]

mod building;
mod curing;
mod data_types;
mod inferring;
mod keeping;
mod laws;
mod lines;
mod solving;

pub use building::{Built, build};
pub use inferring::{Inferred, infer};
pub use laws::built_programs_run_alike;
pub use lines::kinds;
