//! The typing of units (C99 6.7 to 6.9): the definitions, of when a typed unit is well typed, which refusal comes first and how a unit is
//! judged, and the laws that what is given is well typed and what is refused breaks its rule.
#![tactic(auto)]

pub mod laws;
