//! Runs of a machine or of a program: their outcomes, how they are put together, and how two of them are compared.
//! The crate has definitions and laws only, which the meanings of all the languages here share.
#![tactic(auto)]
