//! Types are numbered by their first use: what judging a part uses, one after another in the order of the text, takes the types that are
//! there before it to those that are there after it. A type that is used is there already, or it is the next one.
//! The size that stands in an array part is a number of 64 bits, and a member has a name.
//!
//! Each law is the contract of a function that does nothing. A list of uses is told over the table after the part, and over each later one.
#![tactic(auto)]

pub mod declarations;
pub mod expressions;
