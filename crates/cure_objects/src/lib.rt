//! The cured code that clears and initialises objects. What it is stands in `cure_rules`; here it is made.
#![tactic(auto)]

mod clearing;
mod copying;
mod parts;

pub use clearing::put_clear;
pub use copying::{CopyPlaces, put_part_copy, put_pointer_copy};
pub use parts::{Part, put_part_store};
