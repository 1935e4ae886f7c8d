//! Laws on the limits of a unit: what judging gives for a unit is within them.
#![tactic(auto)]

pub mod cells;
pub mod lasting;
pub mod units;
