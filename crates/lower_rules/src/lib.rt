//! What the three-address code of a typed tree is: a relation between trees and code, one clause for each construct.
#![tactic(auto)]

mod after;

pub use after::After;
