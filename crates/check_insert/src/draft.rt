//! Cured code in the making.
use cured_code::Instr;
use std::alloc::Global;

/// Cured code in the making. It is told here, and not by each answer, that something failed, and code is made on: what
/// is made then is dropped.
#[derive(Drop)]
pub struct Draft {
    pub alloc: Global,
    pub items: Vec<Instr>,
    /// Nothing failed so far: memory was there, and all that was met has code.
    pub fine: bool,
    /// All that was met has code.
    pub ready: bool,
}
