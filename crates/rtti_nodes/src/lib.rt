//! Type nodes, which RTTI pointers carry so that a downcast can be checked (CCured, TOPLAS 2005).
#![tactic(auto)]

mod agreeing;
mod covering;
mod joining;
mod labels;
mod nodes;
mod numbering;
mod ordering;

pub use covering::is_of_one_class;
pub use nodes::Nodes;
pub use numbering::{ClassNumbers, class_numbers};
