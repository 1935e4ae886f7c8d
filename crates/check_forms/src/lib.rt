//! What the checks of cured code compare, and the lines that compare it. Data and laws: nothing here runs.
#![tactic(auto)]

mod op;
mod slots;

pub use op::{Conversion, Factor, Op, Reach, WildNumbers};
pub use slots::{Direction, Distance, Fixed, PointerSlots, Work};
