//! The typing of statements, functions and units (C99 6.8, 6.9).
#![tactic(auto)]

mod around;
mod blocks;
mod calls;
mod checking;
mod definitions;
mod expressions;
mod labels;
mod statements;
mod units;

pub use calls::check;
