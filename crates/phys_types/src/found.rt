//! The pairs of pointers that were found to correspond.
#![tactic(auto)]

ghost use Rattle.std.specs.Prelude.{◌≡◌, ◌≢◌, OnOk, IfOk, slice_get};
ghost use Rattle.std.specs.List.{AllPairs};
ghost use Rattle.phys_types.specs.Found.{held, no_pairs, Gains, AreThese};

use crate::held::Held;
use cc_base::{NoMemory, NodeId, TypeId};
use indexmap::IndexSet;
use std::alloc::Global;
use std::marker::Model;

/// Of each two pointers that are found to correspond, the nodes, and the types that they point to. No pair is there twice, and
/// a new one stands behind the others.
#[derive(Drop)]
pub struct Found {
    nodes: IndexSet<(NodeId, NodeId)>,
    pointees: IndexSet<(TypeId, TypeId)>,
}

impl Model for Found {
    ghost use Rattle.phys_types.specs.Found.{Pairs};

    ghost Value = { Pairs };

    ghost view = { λ f. record { nodes = f.nodes.keys; pointees = f.pointees.keys } };
}

impl Found {
    /// Nothing. Takes no memory.
    pub fn new(alloc: Global) -> Found
        ensures { result ≡ no_pairs }
    {
        Found {
            nodes: IndexSet::new(alloc),
            pointees: IndexSet::new(alloc),
        }
    }

    /// Adds two pointers.
    pub(crate) fn add(&mut self, p: Held, q: Held) -> Result<(), NoMemory>
        ensures { OnOk result (Gains (AreThese (held p) (held q)) self.old self.new) }
    {
        self.nodes.insert((p.node, q.node))?;
        self.pointees.insert((p.to, q.to))?;
        Ok(())
    }

    /// The pair of types number `i`, if there are as many.
    pub(crate) fn pointees(&self, i: usize) -> Option<(TypeId, TypeId)>
        ensures pair { result ≡ slice_get self.now.pointees i }
        ensures once { AllPairs (λ x y. x ≢ y) self.now.pointees }
    {
        self.pointees.as_slice().get(i).copied()
    }

    /// The pairs of types that are pointed to. Takes no memory.
    pub fn all_pointees(&self) -> &[(TypeId, TypeId)]
        ensures { result.now ≡ self.now.pointees }
    {
        self.pointees.as_slice()
    }

    /// The pairs of nodes.
    pub fn into_nodes(self, alloc: Global) -> Result<Vec<(NodeId, NodeId)>, NoMemory>
        ensures pairs { IfOk result (λ pairs. pairs.items ≡ self.nodes) }
        ensures once { AllPairs (λ x y. x ≢ y) self.nodes }
    {
        Ok(Vec::from_slice(alloc, self.nodes.as_slice())?)
    }
}
