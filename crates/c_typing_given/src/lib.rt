//! What is well typed is given by judging: where a typed tree over a table is numbered by its nodes and its types, judging gives that tree.
//! The types that the table of the whole text has are found, or they are the next ones and are added, in the order in which the tree uses them.
//! Expressions and type names are in `expressions`, specifiers and declarators in `declarations`.
//!
//! Each law is the contract of a function that does nothing.
#![tactic(auto)]

pub mod declarations;
pub mod expressions;
