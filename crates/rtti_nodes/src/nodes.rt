//! The table of type nodes.
#![tactic(auto)]

ghost use Rattle.std.specs.Prelude.{ℕ, ◌≡◌, ◌<◌, ◌≤◌, ◌↔◌, IfOk, IsTrue, IsFalse, length};
ghost use Rattle.std.specs.List.{All, Contains};
ghost use Rattle.cc_base.specs.declared.number.TypeId.{TypeId};
ghost use Rattle.c_types.specs.Table.{IsType, AreNodesOf, is_function};
ghost use Rattle.c_types.specs.Flows.{Covers};
ghost use Rattle.cured_code.specs.Tables.{parent_of, is_below};
ghost use Rattle.rtti_nodes.specs.TypeNodes.{AreTypeNodes, node_at, kind_by};

use crate::joining::{Classes, classes_of};
use crate::numbering::class_numbers;
use crate::ordering::by_size;
use c_types::Types;
use cc_base::{Kinds, NoMemory, TypeId};
use cured_code::Parents;
use phys_types::Phys;
use std::alloc::Global;
use std::marker::Model;

/// The type nodes of a program: one for each class of the types that are used, numbered from 1. Contracts see what they were made
/// of, the node of each type and the parents of the nodes.
#[derive(Drop)]
pub struct Nodes<'a> {
    types: &'a Types,
    kinds: &'a Kinds,
    used: &'a [TypeId],
    numbers: Vec<u32>,
    parents: Parents,
}

impl<'a> Model for Nodes<'a> {
    ghost use Rattle.rtti_nodes.specs.TypeNodes.{TypeNodes, AreTypeNodes};

    ghost Value = { TypeNodes };

    ghost view = { λ s. record {
      table = s.types.now;
      kinds = s.kinds.now;
      used = s.used.now;
      numbers = s.numbers.items;
      parents = s.parents;
    } };

    ghost invariant = { λ s. AreTypeNodes (record {
      table = s.types.now;
      kinds = s.kinds.now;
      used = s.used.now;
      numbers = s.numbers.items;
      parents = s.parents;
    }) };
}

/// The parent of a node, or 0 where it has none.
fn parent_of(parents: &[u32], node: u32) -> u32
    ensures { result ≡ parent_of parents.now node }
{
    if node == 0 {
        return 0;
    }
    parents.get(node as usize - 1).copied().unwrap_or(0)
}

/// Whether a node is another or has it as an ancestor.
fn is_below(parents: &[u32], a: u32, b: u32) -> bool
    requires { 0 < b }
    ensures { result ≡ is_below parents.now a b }
{
    let mut node = a;
    'steps: for _step in 0..parents.len() {
        if node == b {
            return true;
        }
        if node == 0 {
            return false;
        }
        node = parent_of(parents, node);
    }
    node == b
}

impl<'a> Nodes<'a> {
    /// The nodes of the types that are used, by the kinds of the pointers in them.
    pub fn make(
        alloc: Global,
        types: &'a Types,
        kinds: &'a Kinds,
        used: &'a [TypeId],
    ) -> Result<Nodes<'a>, NoMemory>
        requires nodes { All (λ e. AreNodesOf (length kinds.now) e.shape) types.now }
        requires used { All (IsType types.now) used.now }
        requires data { All (λ t. IsFalse (is_function types.now t)) used.now }
        ensures table { IfOk result (λ n. n.table ≡ types.now) }
        ensures kinds { IfOk result (λ n. n.kinds ≡ kinds.now) }
        ensures used { IfOk result (λ n. n.used ≡ used.now) }
    {
        let known = Phys::new(alloc).over(types)?;
        let told = class_numbers(alloc, &known, types, kinds)?;
        let ordered = by_size(alloc, &known, used)?;
        let Classes {
            firsts: _firsts,
            parents,
            numbers,
        } = classes_of(alloc, &known, kinds, &told, types.count(), &ordered)?;
        Ok(Nodes {
            types,
            kinds,
            used,
            numbers,
            parents: Parents(parents),
        })
    }

    /// The node of a type that is used. Takes no memory.
    pub fn node_of(&self, t: TypeId) -> u32
        requires { Contains self.now.used t }
        ensures { result ≡ node_at self.now t }
    {
        self.numbers[t.0 as usize]
    }

    /// The nodes of all types, by the numbers of the types; where a type isn't used it says nothing. Takes no memory.
    pub fn numbers(&self) -> &[u32]
        ensures { result.now ≡ self.now.numbers }
    {
        &self.numbers
    }

    /// The parents of the nodes, that of node 1 first. Takes no memory.
    pub fn parents(&self) -> &Parents
        ensures same { result.now ≡ self.now.parents }
        ensures nodes { AreTypeNodes self.now }
    {
        &self.parents
    }

    /// Whether the type of a node covers that of another. Takes no memory.
    pub fn below(&self, a: u32, b: u32) -> bool
        requires first { (0 < a) × (a ≤ length self.now.parents) }
        requires second { (0 < b) × (b ≤ length self.now.parents) }
        ensures walks { result ≡ is_below self.now.parents a b }
        ensures covers { (t u : TypeId) → Contains self.now.used t → Contains self.now.used u
            → node_at self.now t ≡ a → node_at self.now u ≡ b
            → IsTrue result ↔ Covers self.now.table (kind_by self.now) t u }
    {
        is_below(&self.parents.0, a, b)
    }
}
