//! The pointers that assignments of structs move: what judging counts of a part of the text is what the assignments in it move.
//! The crate has lemmas only.
#![tactic(auto)]
