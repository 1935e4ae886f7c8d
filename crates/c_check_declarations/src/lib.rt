//! The typing of initialisers and declarations (C99 6.7).
#![tactic(auto)]

mod constants;
mod declarations;
mod initialisers;
mod sizes;
mod slots;
mod texts;

pub use declarations::declaration;
