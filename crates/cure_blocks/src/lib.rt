//! The cured code of conversions, allocations and the functions of the C library. What it is stands in `cure_rules`; here it
//! is made.
#![tactic(auto)]

mod allocating;
mod converting;
mod runtime;

pub use allocating::put_allocate;
pub use converting::put_convert;
pub use runtime::put_runtime;
