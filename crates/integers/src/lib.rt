//! Integers as C has them and as machine words hold them: residues, 64-bit words, and the laws between the two.
//! The crate has definitions and laws only, which the meanings of source programs and of cured code share.
#![tactic(auto)]
