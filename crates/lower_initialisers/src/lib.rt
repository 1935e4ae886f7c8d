//! The three-address code of initialisers and of declarations (C99 6.7.8). What it is stands in `lower_rules`; here it is made.
#![tactic(auto)]

mod declarations;
mod filling;
mod starts;
mod text;

pub use declarations::{declaration, initialise};
