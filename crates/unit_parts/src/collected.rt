//! What is collected.
use c_types::Types;
use cil_form::{Planned, Static};
use kind_sites::Site;
use std::alloc::Global;

/// What a walk over a tree looks at beside the tree.
pub struct Scope<'a> {
    pub alloc: Global,
    pub types: &'a Types,
}

/// What was found, in the order of the text. It is told here, and not by each answer, that memory was wanted, and the walk
/// goes on: what is found then is dropped.
#[derive(Drop)]
pub struct Collected {
    pub statics: Vec<Static>,
    pub locals: Vec<Planned>,
    pub sites: Vec<Site>,
    /// Nothing failed so far.
    pub fine: bool,
}
