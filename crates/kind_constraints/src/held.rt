//! The nodes of the pointers that a type holds, those in mixed unions included.
#![tactic(auto)]

ghost use Rattle.std.specs.Prelude.{◌≡◌, ◌≢◌, ◌↔◌, ◌++◌, List, slice_get, IfOk, OnOk};
ghost use Rattle.std.specs.List.{AllPairs, Contains};
ghost use Rattle.cc_base.specs.declared.number.TypeId.{TypeId};
ghost use Rattle.c_types.specs.Table.{IsType, IsUnion, members_at};
ghost use Rattle.c_types.specs.Sound.{IsWellFormed};
ghost use Rattle.kind_constraints.specs.Adding.{Adds};
ghost use Rattle.kind_constraints.specs.Pieces.{IsMixedMember, HoldsType, AreNodesIn};

use c_types::Types;
use cc_base::{NoMemory, NodeId, TypeId};
use indexmap::IndexSet;
use phys_types::{Found, Known};
use std::alloc::Global;

/// Adds the members of a union.
fn add_members(held: &mut IndexSet<TypeId>, types: &Types, v: TypeId) -> Result<(), NoMemory>
    requires typed { IsType types.now v }
    requires union { IsUnion types.now v }
    ensures added { OnOk result
        (Adds (Contains (members_at types.now v)) held.old.keys held.new.keys) }
    ensures behind { OnOk result ((rest : List TypeId) × (held.new.keys ≡ held.old.keys ++ rest)) }
{
    'members: for i in 0..types.fields(v) {
        held.insert(types.field(v, i).ty)?;
    }
    Ok(())
}

/// Adds the members of the mixed unions that a type holds by value.
fn add_mixed_members(
    known: &Known,
    types: &Types,
    held: &mut IndexSet<TypeId>,
    x: TypeId,
) -> Result<(), NoMemory>
    requires table { known.now ≡ types.now }
    requires formed { IsWellFormed types.now }
    requires typed { IsType types.now x }
    ensures added { OnOk result (Adds (IsMixedMember types.now x) held.old.keys held.new.keys) }
    ensures behind { OnOk result ((rest : List TypeId) × (held.new.keys ≡ held.old.keys ++ rest)) }
{
    let unions = known.mixed_unions(x)?;
    'unions: for v in &unions {
        add_members(held, types, *v)?;
    }
    Ok(())
}

/// The type number `i` of a set, if there are as many.
fn type_at(held: &IndexSet<TypeId>, i: usize) -> Option<TypeId>
    ensures there { result ≡ slice_get held.now.keys i }
    ensures once { AllPairs (λ x y. x ≢ y) held.now.keys }
{
    held.as_slice().get(i).copied()
}

/// The types whose own pointers a type holds: itself, and the members of the mixed unions in it.
fn held_types(
    alloc: Global,
    known: &Known,
    types: &Types,
    t: TypeId,
) -> Result<IndexSet<TypeId>, NoMemory>
    requires table { known.now ≡ types.now }
    requires formed { IsWellFormed types.now }
    requires typed { IsType types.now t }
    ensures { IfOk result (λ held. (x : TypeId) → Contains held.keys x ↔ HoldsType types.now t x) }
{
    let mut held = IndexSet::new(alloc);
    held.insert(t)?;
    let mut i = 0;
    'queue: while let Some(x) = type_at(&held, i) {
        add_mixed_members(known, types, &mut held, x)?;
        i += 1;
    }
    Ok(held)
}

/// The nodes of the pointers that a type holds, each with itself.
pub(crate) fn held_nodes(
    alloc: Global,
    known: &Known,
    types: &Types,
    t: TypeId,
) -> Result<Vec<(NodeId, NodeId)>, NoMemory>
    requires table { known.now ≡ types.now }
    requires formed { IsWellFormed types.now }
    requires typed { IsType types.now t }
    ensures { IfOk result (λ nodes. AreNodesIn types.now t nodes.items) }
{
    let held = held_types(alloc, known, types, t)?;
    let mut found = Found::new(alloc);
    'held: for x in held.as_slice() {
        known.add_places(&mut found, *x, *x)?;
    }
    found.into_nodes(alloc)
}
