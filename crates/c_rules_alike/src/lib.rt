//! The rules of each construct read only types that are there: where operands are well typed over a table and their types are in it, each list
//! of rules is over that table what it is over each that goes on from it (C99 6.5 to 6.7.5), and so is what the construct makes.
//! The crate has lemmas only.
#![tactic(auto)]
