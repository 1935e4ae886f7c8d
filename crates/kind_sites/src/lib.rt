//! What the constructs of a program ask of the kinds of its nodes: sites, the table of allowed flows, and when a map of kinds is a
//! solution (CCured, TOPLAS 2005).
#![tactic(auto)]

mod site;

pub use site::Site;
