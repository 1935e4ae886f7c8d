//! The mixed unions in a layout.
#![tactic(auto)]

ghost use Rattle.std.specs.Prelude.{◌≡◌, ◌↔◌, ◌⊎◌, Some, IfOk, OnOk, IsTrue};
ghost use Rattle.std.specs.List.{Contains};
ghost use Rattle.cc_base.specs.declared.number.TypeId.{TypeId};
ghost use Rattle.phys_types.specs.Standing.{union_of_item, HoldsUnion};

use crate::spot::{Item, Spot};
use cc_base::{NoMemory, TypeId};
use indexmap::IndexSet;
use std::alloc::Global;

/// The mixed union at a spot, if one stands there.
fn union_at(spot: Spot) -> Option<TypeId>
    ensures { result ≡ union_of_item spot.item }
{
    match spot.item {
        Item::Mixed(t, _) => Some(t),
        _ => None,
    }
}

/// Whether the mixed union t stands at a spot.
fn is_union_at(spot: Spot, t: TypeId) -> bool
    ensures { IsTrue result ↔ (union_of_item spot.item ≡ Some t) }
{
    match spot.item {
        Item::Mixed(u, _) => u.0 == t.0,
        _ => false,
    }
}

/// Whether the mixed union t stands among spots.
pub(crate) fn has_union(spots: &[Spot], t: TypeId) -> bool
    ensures { IsTrue result ↔ HoldsUnion spots.now t }
{
    'spots: for spot in spots {
        if is_union_at(*spot, t) {
            return true;
        }
    }
    false
}

/// Adds a mixed union to others, if there is one.
pub(crate) fn add_union(
    unions: &mut IndexSet<TypeId>,
    union: Option<TypeId>,
) -> Result<(), NoMemory>
    ensures { OnOk result ((v : TypeId) → Contains unions.new.keys v ↔
        (Contains unions.old.keys v ⊎ (union ≡ Some v))) }
{
    if let Some(t) = union {
        unions.insert(t)?;
    }
    Ok(())
}

/// The mixed unions among spots.
pub(crate) fn unions_of(alloc: Global, spots: &[Spot]) -> Result<Vec<TypeId>, NoMemory>
    ensures { IfOk result (λ unions. (v : TypeId)
        → Contains unions.items v ↔ HoldsUnion spots.now v) }
{
    let mut unions = IndexSet::new(alloc);
    'spots: for spot in spots {
        add_union(&mut unions, union_at(*spot))?;
    }
    Ok(Vec::from_slice(alloc, unions.as_slice())?)
}
