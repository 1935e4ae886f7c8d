//! Code in the making.
use c_types::Types;
use cc_base::NodeId;
use cil_form::Instr;
use indexmap::IndexSet;
use std::alloc::Global;

/// What the code of a function depends on beside its tree: the types, and the homes of the static objects and of the
/// function's variables, in the order of their numbers.
pub struct Scope<'a> {
    pub alloc: Global,
    pub types: &'a Types,
    pub statics: &'a IndexSet<NodeId>,
    pub variables: &'a IndexSet<NodeId>,
}

/// Code in the making. It is told here, and not by each answer, that something failed, and code is made on: what is
/// made then is dropped.
#[derive(Drop)]
pub struct Draft {
    pub items: Vec<Instr>,
    /// Nothing failed so far: memory was there, and all that was met has code.
    pub fine: bool,
    /// All that was met has code.
    pub ready: bool,
}
