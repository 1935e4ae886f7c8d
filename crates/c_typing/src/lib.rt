//! When C programs are well typed (C99 6.5, 6.7): the rules as definitions, and what is known at a point of a text: the scopes of names and
//! tags, types with their nodes, and the values of constants.
#![tactic(auto)]

pub mod constant;
pub mod construct;
pub mod copies;
pub mod declared;
pub mod inner_scopes;
pub mod kind;
pub mod level;
pub mod member;
pub mod naming;
pub mod operand;
pub mod same;
pub mod scope;
pub mod shapes;
pub mod stops;
pub mod typing;
pub mod value;

pub use declared::{Declared, Tag};
pub use naming::Naming;
pub use scope::Scope;
