//! A unit with its types.
#![tactic(auto)]

use crate::items::Items;
use crate::typed_statement::TypedUnit;
use c_types::Types;
use cc_base::{NodeId, Place};

/// A node whose kind is printed: where it is written, and whether it is a variable's home or a pointer type.
#[derive(Clone, Copy, Debug, PartialEq, Eq)]
pub struct Printed {
    pub place: Place,
    pub node: NodeId,
    pub home: bool,
}

/// A well typed unit: its typed tree, its types, the number of its nodes, and those that are printed, in the order of their places.
pub struct Typed {
    pub unit: TypedUnit,
    pub types: Types,
    pub nodes: u32,
    pub printed: Items<Printed>,
}

impl Drop for Typed {
    fn drop(self) {
        let Self {
            unit: _,
            types: _,
            nodes: _,
            printed: _,
        } = self;
    }
}
