//! The table of the types of a unit of C.
#![tactic(auto)]

mod canonical;
mod fault;
mod flow_class;
mod kept;
mod layout;
mod shape;
mod table;

pub use fault::TypeFault;
pub use flow_class::FlowClass;
pub use kept::FieldPlace;
pub use layout::Layout;
pub use shape::{TypeList, TypeShape};
pub use table::Types;
