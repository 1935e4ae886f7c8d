//! The constraints on the kinds of a program's nodes, from the sites of its three-address code (CCured, TOPLAS 2005).
#![tactic(auto)]

mod answered;
mod asked;
mod below;
mod contents;
mod held;
mod listing;
mod sites;
mod tops;
mod unions;

pub use listing::constraints;
