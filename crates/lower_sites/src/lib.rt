//! The sites of a unit: what its types, its objects, its pieces and the declarations of its names ask of the kinds of its nodes.
#![tactic(auto)]

mod firsts;
mod names;
mod objects;
mod sites;
mod walk;

pub use sites::sites_of;
