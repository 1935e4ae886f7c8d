//! The three-address code of a unit: its functions, its static objects and their initialisers. What it is stands in `lower_rules`; here it is
//! made.
#![tactic(auto)]

mod collecting;
mod drafts;
mod externals;
mod functions;
mod homes;
mod parameters;
mod statics;
mod units;

pub use units::program;
