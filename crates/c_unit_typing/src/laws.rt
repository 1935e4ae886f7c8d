//! Laws of the definitions: what the judging of units gives is well typed, and erases to what was judged; what it refuses breaks the rule
//! that is named.
#![tactic(auto)]

pub mod refusals;
pub mod units;
