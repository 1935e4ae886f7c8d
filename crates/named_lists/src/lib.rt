//! Lists of what stands beside names: an entry by its name, entries in the order of their first declarations, and how a map whose
//! keys hold names is such a list. And for each name a stack of what it stands for, so that the innermost is found in one step.
#![tactic(auto)]

mod stacks;

pub use stacks::NameStacks;
