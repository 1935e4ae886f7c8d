//! The machine that runs cured code.
#![tactic(auto)]

mod calls;
mod ending;
mod in_frame;
mod laying;
mod loading;
mod lookups;
mod machine;
mod making;
mod operation;
mod pairs;
mod reading;
mod row;
mod running;
mod slot_rows;
mod step;
mod tags;
mod tests_and_divisions;
mod touching;
mod words;

pub use ending::Ending;
pub use machine::Machine;
