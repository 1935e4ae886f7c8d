//! What the cured code of three-address code is: a relation between instructions, what is known where they stand, and the lines that they
//! become. Laws alone: nothing here runs.
#![tactic(auto)]
