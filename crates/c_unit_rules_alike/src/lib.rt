//! The rules of the parts of a unit read only types that are there: each list of rules is over a table what it is over each that goes on from it
//! (C99 6.7 to 6.9).
//! The crate has lemmas only.
#![tactic(auto)]
