//! A pointer in a type.
#![tactic(auto)]

use cc_base::{NodeId, TypeId};

/// A pointer in a type: its node, and the type that it points to.
#[derive(Clone, Copy, PartialEq, Eq, Hash)]
pub(crate) struct Held {
    pub(crate) node: NodeId,
    pub(crate) to: TypeId,
}
