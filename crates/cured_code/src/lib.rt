//! Cured code as data, the ranges that its numbers keep, and the definition of what it means: the flat machine.
#![tactic(auto)]

mod cured;
mod instr;
mod naming;
mod parts;
mod ranges;

pub use cured::Cured;
pub use instr::{Code, Instr, Narrow};
pub use naming::{Names, is_instr_in_range};
pub use parts::{
    AreaLine, Bytes, Function, Functions, GlobalLine, Globals, Locals, Parents, Parts, Sig, Sigs,
};
