//! Whether pointers at the same places of two types agree.
#![tactic(auto)]

ghost use Rattle.std.specs.Prelude.{◌≡◌, ◌<◌, ◌↔◌, ◌⊎◌, IfOk, IsTrue, length};
ghost use Rattle.std.specs.List.{All, Contains};
ghost use Rattle.cc_base.specs.declared.number.NodeId.{NodeId};
ghost use Rattle.cc_base.specs.declared.number.TypeId.{TypeId};
ghost use Rattle.cc_base.specs.Kinds.{kind_at, same_kind};
ghost use Rattle.c_types.specs.Table.{IsType, AreNodesOf};
ghost use Rattle.c_types.specs.Equality.{physically_equal, begins_with};
ghost use Rattle.c_types.specs.Sound.{IsWellFormed};
ghost use Rattle.phys_types.specs.Numbers.{number_in};
ghost use Rattle.rtti_nodes.specs.Numbering.{AgreeAtPlaces};

use cc_base::{Kind, Kinds, NoMemory, NodeId, TypeId};
use phys_types::{Found, Known, number_of};
use std::alloc::Global;

/// Whether two kinds are the same.
fn is_same(k: Kind, l: Kind) -> bool
    ensures { result ≡ same_kind k l }
{
    match k {
        Kind::Safe => matches!(l, Kind::Safe),
        Kind::Seq => matches!(l, Kind::Seq),
        Kind::Rtti => matches!(l, Kind::Rtti),
        Kind::Wild => matches!(l, Kind::Wild),
    }
}

/// Whether the nodes of each pair have one kind.
pub(crate) fn have_equal_kinds(kinds: &Kinds, pairs: &[(NodeId, NodeId)]) -> bool
    requires first { (a b : NodeId) → Contains pairs.now (a, b) → a.0 < length kinds.now }
    requires second { (a b : NodeId) → Contains pairs.now (a, b) → b.0 < length kinds.now }
    ensures { IsTrue result ↔ ((a b : NodeId) →
        Contains pairs.now (a, b) → kind_at kinds.now a ≡ kind_at kinds.now b) }
{
    'pairs: for pair in pairs {
        if !is_same(kinds.kind_of(pair.0), kinds.kind_of(pair.1)) {
            return false;
        }
    }
    true
}

/// Whether the types of each pair have one number.
fn have_one_number(numbers: &[usize], pairs: &[(TypeId, TypeId)]) -> bool
    ensures { IsTrue result ↔ ((t u : TypeId) →
        Contains pairs.now (t, u) → number_in numbers.now t ≡ number_in numbers.now u) }
{
    'pairs: for pair in pairs {
        if number_of(numbers, pair.0) != number_of(numbers, pair.1) {
            return false;
        }
    }
    true
}

/// Whether the pointers at the same places of two types have equal kinds and point to types with one number, where the types are
/// physically equal or the first begins with the second.
pub(crate) fn places_agree(
    alloc: Global,
    known: &Known,
    kinds: &Kinds,
    numbers: &[usize],
    t: TypeId,
    u: TypeId,
) -> Result<bool, NoMemory>
    requires formed { IsWellFormed known.now }
    requires first { IsType known.now t }
    requires second { IsType known.now u }
    requires near { IsTrue (physically_equal known.now t u) ⊎ IsTrue (begins_with known.now t u) }
    requires nodes { All (λ e. AreNodesOf (length kinds.now) e.shape) known.now }
    ensures { IfOk result
        (λ agree. IsTrue agree ↔ AgreeAtPlaces known.now (kind_at kinds.now) numbers.now t u) }
{
    let mut found = Found::new(alloc);
    known.add_places(&mut found, t, u)?;
    if !have_one_number(numbers, found.all_pointees()) {
        return Ok(false);
    }
    let pairs = found.into_nodes(alloc)?;
    Ok(have_equal_kinds(kinds, &pairs))
}
