//! From the text of a C program to its typed unit: its tokens, the unit that they spell, and its types, in turn.
#![tactic(auto)]

mod front;

pub use front::typed;
